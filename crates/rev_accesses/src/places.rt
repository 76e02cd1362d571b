//! The cells of a footprint by their places.
ghost use Rattle.std.specs.Prelude.{◌≡◌, take};

use std::marker::Model;

/// What an event reads and writes, by the places of the cells in a table that its owner keeps: four bytes each, those
/// that it writes first. Of a whole event, which reads and writes every cell, these are the cells that it names.
pub struct Places {
    read: Vec<u32>,
    written: usize,
    whole: bool,
}

impl Drop for Places {
    fn drop(self) {
        let Places {
            read: _read,
            written: _written,
            whole: _whole,
        } = self;
    }
}

impl Model for Places {
    ghost use Rattle.rev_accesses.specs.Places.{PlacesValue, places_code};
    ghost use Rattle.std.specs.Prelude.{take};

    ghost Value = { PlacesValue };

    ghost coded = { places_code };

    ghost view = { λ a. record {
      read = a.read.items;
      written = take a.written a.read.items;
      whole = a.whole;
    } };
}

impl Places {
    /// Places that are read, of which the first `written` ones are written, of an event that is whole or not.
    pub fn of(read: Vec<u32>, written: usize, whole: bool) -> Places
        ensures { result ≡ record {
          read = read.items;
          written = take written read.items;
          whole = whole;
        } }
    {
        Places {
            read,
            written,
            whole,
        }
    }

    /// The places of the cells that the event reads.
    pub fn read(&self) -> &[u32]
        ensures { result.now ≡ self.now.read }
    {
        self.read.as_slice()
    }

    /// The places of the cells that the event writes, in the order of its effect.
    pub fn written(&self) -> &[u32]
        ensures { result.now ≡ self.now.written }
    {
        let many = self.written.min(self.read.len());
        &self.read[..many]
    }

    /// Whether the event reads and writes every cell.
    pub fn whole(&self) -> bool
        ensures { result ≡ self.now.whole }
    {
        self.whole
    }
}
