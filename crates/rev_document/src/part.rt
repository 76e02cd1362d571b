//! Parts of a document.
use crate::bytes::Bytes;
use crate::level::Shape;

/// How a stretch of words looks where colours are wanted.
#[derive(Clone, Copy)]
pub enum Tone {
    /// As the terminal has it.
    Plain,
    /// Red: what is wrong.
    Wrong,
    /// Yellow: what may be wrong.
    Maybe,
    /// Green: what mends it, and what is well.
    Well,
    /// Bold green: a good result.
    Certain,
    /// Bold: the number of a finding.
    Number,
    /// Cyan: a place in a file.
    Place,
}

/// What a part is.
pub enum Value {
    /// Words of the program.
    Words(&'static str),
    /// A text from outside, as a command line: a space stays a space.
    Text(Bytes),
    /// A name, as a path: one word.
    Name(Bytes),
    /// A number.
    Number(u64),
    /// The number of an event.
    Event(u32),
    /// Milliseconds.
    Time(u64),
    /// How many things of a noun there are. The noun has an `s` behind it, except of one.
    Count(u64, &'static str),
    /// A line of a file.
    Place(Bytes, u64),
    /// A truth. It has no words.
    Flag(bool),
    /// That there is nothing. It has no words.
    Null,
    /// A group begins.
    Open(Shape),
    /// A group ends.
    Close(Shape),
    /// A line ends.
    Line,
    /// What follows has this tone.
    Paint(Tone),
    /// How many details a screen leaves out, between two texts.
    Rest(&'static str, u64, &'static str),
}

impl Drop for Value {
    fn drop(self) {
        match self {
            Value::Text(_bytes) => {}
            Value::Name(_bytes) => {}
            Value::Words(_words) => {}
            Value::Number(_number) => {}
            Value::Event(_number) => {}
            Value::Time(_time) => {}
            Value::Count(_count, _noun) => {}
            Value::Place(_file, _line) => {}
            Value::Flag(_flag) => {}
            Value::Null => {}
            Value::Open(_shape) => {}
            Value::Close(_shape) => {}
            Value::Line => {}
            Value::Paint(_tone) => {}
            Value::Rest(_before, _count, _after) => {}
        }
    }
}

/// Where a part stands in JSON.
#[derive(Clone, Copy)]
pub enum Place {
    /// JSON leaves it out.
    Nowhere,
    /// In a line of its own.
    Top,
    /// A member of this name, which is or is not the first one of its object.
    Member(&'static str, bool),
    /// An element, which is or is not the first one of its list.
    Element(bool),
    /// Within a string.
    Inside,
    /// At the end of a group.
    End,
    /// At the end of a group that has a line of its own.
    LineEnd,
}

/// A part of a document.
pub struct Part {
    /// Whether words have it.
    pub is_said: bool,
    /// Whether it belongs to a detail, which a screen leaves out.
    pub is_detail: bool,
    /// Where it stands in JSON.
    pub place: Place,
    /// What it is.
    pub value: Value,
}

impl Drop for Part {
    fn drop(self) {
        let Part {
            is_said: _is_said,
            is_detail: _is_detail,
            place: _place,
            value: _value,
        } = self;
    }
}
