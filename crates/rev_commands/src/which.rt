//! How a command names an accepted event.
ghost use Rattle.std.specs.Prelude.{◌≡◌, ◌↔◌, IsTrue};

/// The name of an accepted event.
#[derive(Clone, Copy, Debug, PartialEq, Eq)]
pub enum Which {
    /// The number of the event, which is that of its entry in the journal, from 1.
    Number(u32),
    /// `LANE:PLACE`: the lane's entry at that place of the journal. Lanes count from 0; a lane's entries count from 1.
    Label { lane: u32, place: u32 },
}

impl Which {
    /// Whether two names are equal.
    pub fn same(self, other: Which) -> bool
        ensures { IsTrue result ↔ (self ≡ other) }
    {
        self == other
    }
}
