//! The writer of documents.
ghost use Rattle.std.specs.Prelude.{◌≡◌, IfOk, is_ok, not, false, []};
ghost use Rattle.std.specs.Option.{option_copied};
ghost use Rattle.rev_document.specs.Levels.{top_level};
ghost use Rattle.rev_document.specs.Writing.{Adds, Begins, Ends, Itemizes, Puts, Rests, event_or_null, name_or_null, number_or_null, time_or_null, word_or_null};

use crate::bytes::Bytes;
use crate::level::{Level, Shape, To};
use crate::part::{Part, Place, Tone, Value};
use std::alloc::{AllocError, Global};

/// A document: its parts, in their order.
pub struct Document {
    parts: Vec<Part>,
}

impl Drop for Document {
    fn drop(self) {
        let Document { parts: _parts } = self;
    }
}

impl Document {
    /// The parts.
    pub fn parts(&self) -> &[Part]
        ensures { result.now ≡ self.now.parts.items }
    {
        self.parts.as_slice()
    }
}

/// What makes a document. Its calls return nothing: where memory is refused, the writer remembers that, takes no
/// further part, and gives no document.
pub struct Writer {
    alloc: Global,
    parts: Vec<Part>,
    levels: Vec<Level>,
    level: Level,
    is_refused: bool,
}

impl Drop for Writer {
    fn drop(self) {
        let Writer {
            alloc: _alloc,
            parts: _parts,
            levels: _levels,
            level: _level,
            is_refused: _is_refused,
        } = self;
    }
}

impl Writer {
    /// A writer of an empty document.
    pub fn new(alloc: Global) -> Writer
        ensures parts { result.parts.items ≡ [] }
        ensures levels { result.levels.items ≡ [] }
        ensures level { result.level ≡ top_level }
        ensures latch { result.is_refused ≡ false }
    {
        Writer {
            alloc,
            parts: Vec::new(alloc),
            levels: Vec::new(alloc),
            level: Level::top(),
            is_refused: false,
        }
    }

    // Adds a part at a place.
    fn push(&mut self, is_said: bool, place: Place, value: Value)
        ensures { Puts self.old self.new is_said place value }
    {
        if self.is_refused {
            return;
        }
        let part = Part {
            is_said,
            is_detail: self.level.is_within || self.level.is_detail,
            place,
            value,
        };
        if self.parts.push(part).is_err() {
            self.is_refused = true;
        }
    }

    // Adds a part that stands in no group of its own.
    fn put(&mut self, to: To, value: Value)
        ensures { Adds self.old self.new to value }
    {
        let place = self.level.place(to);
        self.push(self.level.says(to), place, value);
        self.level = self.level.after(place);
    }

    /// Adds words of the program. JSON has them only within a string.
    pub fn words(&mut self, words: &'static str)
        ensures { Adds self.old self.new To.Words (Value.Words words.entry) }
    {
        self.put(To::Words, Value::Words(words));
    }

    /// Adds a word of the program for a kind, which JSON has as a string.
    pub fn word(&mut self, to: To, word: &'static str)
        ensures { Adds self.old self.new to (Value.Words word.entry) }
    {
        self.put(to, Value::Words(word));
    }

    /// Adds a word of the program for a kind, or that there is none.
    pub fn word_if(&mut self, to: To, word: Option<&'static str>)
        ensures { Adds self.old self.new to (word_or_null word.entry) }
    {
        match word {
            Some(word) => self.put(to, Value::Words(word)),
            None => self.put(to, Value::Null),
        }
    }

    /// Adds a text from outside: a space stays a space.
    pub fn text(&mut self, to: To, text: &[u8])
        ensures { Adds self.old self.new to (Value.Text text.now) }
    {
        match Bytes::new(self.alloc, text) {
            Ok(text) => self.put(to, Value::Text(text)),
            Err(AllocError) => self.is_refused = true,
        }
    }

    /// Adds a name, as a path: one word.
    pub fn name(&mut self, to: To, name: &[u8])
        ensures { Adds self.old self.new to (Value.Name name.now) }
    {
        match Bytes::new(self.alloc, name) {
            Ok(name) => self.put(to, Value::Name(name)),
            Err(AllocError) => self.is_refused = true,
        }
    }

    /// Adds a name, or that there is none.
    pub fn name_if(&mut self, to: To, name: Option<&[u8]>)
        ensures { Adds self.old self.new to (name_or_null (option_copied name.entry)) }
    {
        match name {
            Some(name) => self.name(to, name),
            None => self.put(to, Value::Null),
        }
    }

    /// Adds a number.
    pub fn number(&mut self, to: To, number: u64)
        ensures { Adds self.old self.new to (Value.Number number) }
    {
        self.put(to, Value::Number(number));
    }

    /// Adds a number, or that there is none.
    pub fn number_if(&mut self, to: To, number: Option<u64>)
        ensures { Adds self.old self.new to (number_or_null number) }
    {
        match number {
            Some(number) => self.put(to, Value::Number(number)),
            None => self.put(to, Value::Null),
        }
    }

    /// Adds the number of an event.
    pub fn event(&mut self, to: To, number: u32)
        ensures { Adds self.old self.new to (Value.Event number) }
    {
        self.put(to, Value::Event(number));
    }

    /// Adds the number of an event, or that there is none.
    pub fn event_if(&mut self, to: To, number: Option<u32>)
        ensures { Adds self.old self.new to (event_or_null number) }
    {
        match number {
            Some(number) => self.put(to, Value::Event(number)),
            None => self.put(to, Value::Null),
        }
    }

    /// Adds milliseconds.
    pub fn time(&mut self, to: To, time: u64)
        ensures { Adds self.old self.new to (Value.Time time) }
    {
        self.put(to, Value::Time(time));
    }

    /// Adds milliseconds, or that the time is not known.
    pub fn time_if(&mut self, to: To, time: Option<u64>)
        ensures { Adds self.old self.new to (time_or_null time) }
    {
        match time {
            Some(time) => self.put(to, Value::Time(time)),
            None => self.put(to, Value::Null),
        }
    }

    /// Adds how many things of a noun there are.
    pub fn count(&mut self, to: To, count: u64, noun: &'static str)
        ensures { Adds self.old self.new to (Value.Count count noun.entry) }
    {
        self.put(to, Value::Count(count, noun));
    }

    /// Adds a truth, which has no words.
    pub fn flag(&mut self, to: To, flag: bool)
        ensures { Adds self.old self.new to (Value.Flag flag) }
    {
        self.put(to, Value::Flag(flag));
    }

    /// Adds that there is nothing, which has no words.
    pub fn null(&mut self, to: To)
        ensures { Adds self.old self.new to Value.Null }
    {
        self.put(to, Value::Null);
    }

    /// Ends a line.
    pub fn line(&mut self)
        ensures { Adds self.old self.new To.Words Value.Line }
    {
        self.put(To::Words, Value::Line);
    }

    /// Gives what follows a tone.
    pub fn paint(&mut self, tone: Tone)
        ensures { Adds self.old self.new To.Words (Value.Paint tone) }
    {
        self.put(To::Words, Value::Paint(tone));
    }

    /// Adds a place, as `build.ninja:19`.
    pub fn place(&mut self, to: To, file: &[u8], line: u64)
        ensures { Adds self.old self.new to (Value.Place file.now line) }
    {
        match Bytes::new(self.alloc, file) {
            Ok(file) => self.put(to, Value::Place(file, line)),
            Err(AllocError) => self.is_refused = true,
        }
    }

    /// Begins a group.
    pub fn open(&mut self, to: To, shape: Shape)
        ensures { Begins self.old self.new to shape }
    {
        let outside = self.level;
        let place = outside.group_place(to);
        self.push(outside.says(to), place, Value::Open(shape));
        if self.is_refused {
            return;
        }
        if self.levels.push(outside.after(place)).is_err() {
            self.is_refused = true;
            return;
        }
        self.level = outside.inner(to, place, shape);
    }

    /// Ends the group that began last. Where no group has begun, nothing happens.
    pub fn close(&mut self)
        ensures { Ends self.old self.new }
    {
        let level = self.level;
        if let Some(outside) = self.levels.pop() {
            self.push(level.is_said, level.end, Value::Close(level.shape));
            self.level = outside;
        }
    }

    /// Begins an item of a list of lines. A screen leaves it out where it is a detail.
    pub fn item(&mut self, is_detail: bool)
        ensures { Itemizes self.old self.new is_detail }
    {
        self.level.is_detail = is_detail;
        if is_detail {
            self.level.left = self.level.left.saturating_add(1);
        }
    }

    /// Ends the items. On a screen the line says how many details it left out: `before`, their number, and `after`.
    pub fn rest(&mut self, before: &'static str, after: &'static str)
        ensures { Rests self.old self.new before.entry after.entry }
    {
        let left = self.level.left;
        self.level.is_detail = false;
        self.level.left = 0;
        self.put(To::Words, Value::Rest(before, left, after));
    }

    /// The document, or that memory was refused at some call.     ///
    /// # Errors
    /// [`AllocError`] exactly where an allocation was refused at some call of this writer.
    pub fn finish(self) -> Result<Document, AllocError>
        ensures latch { is_ok result ≡ not self.is_refused }
        ensures parts { IfOk result (λ document. document.parts.items ≡ self.parts.items) }
    {
        let Writer {
            alloc: _alloc,
            parts,
            levels: _levels,
            level: _level,
            is_refused,
        } = self;
        if is_refused {
            return Err(AllocError);
        }
        Ok(Document { parts })
    }
}
