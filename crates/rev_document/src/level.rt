//! Groups, and who gets a part.
ghost use Rattle.std.specs.Prelude.{◌≡◌};
ghost use Rattle.rev_document.specs.Levels.{after_part, end_at, group_place, has_place, inner_level, place_of, said_at, shape_at, top_level};

use crate::part::Place;

/// Who gets a part.
#[derive(Clone, Copy)]
pub enum To {
    /// Words alone.
    Words,
    /// JSON alone, as a member of this name. A list gives its elements no names.
    Json(&'static str),
    /// Words, and JSON as a member of this name.
    Both(&'static str),
}

/// What a group is.
#[derive(Clone, Copy)]
pub enum Shape {
    /// No group: the document itself.
    Top,
    /// An object. Outside of each group it is a line of JSON.
    Object,
    /// A list.
    List,
    /// One string, made of the words of its parts.
    Phrase,
}

/// A group that has begun, and what came in it so far.
#[derive(Clone, Copy)]
pub struct Level {
    /// What it is.
    pub shape: Shape,
    /// Where its end stands in JSON.
    pub end: Place,
    /// Whether words have its parts.
    pub is_said: bool,
    /// Whether JSON has its parts.
    pub is_kept: bool,
    /// Whether the group stands within a detail.
    pub is_within: bool,
    /// Whether the item that has begun in the group is a detail.
    pub is_detail: bool,
    /// Whether JSON has no part of the group so far.
    pub is_first: bool,
    /// How many details came in the group since they were last counted.
    pub left: u64,
}

// Where a part stands in a group of a shape.
fn place_in(shape: Shape, is_first: bool, to: To) -> Place
    ensures { result ≡ Rattle.rev_document.specs.Levels.place_in shape is_first to }
{
    match (shape, to) {
        (Shape::Phrase, _) => Place::Inside,
        (Shape::Object, To::Json(name) | To::Both(name)) => Place::Member(name, is_first),
        (Shape::List, To::Json(_) | To::Both(_)) => Place::Element(is_first),
        _ => Place::Nowhere,
    }
}

impl Place {
    // Whether JSON has a part that stands here.
    fn is_somewhere(self) -> bool
        ensures { result ≡ has_place self }
    {
        !matches!(self, Place::Nowhere)
    }

    // Where the end of a group stands that begins here.
    fn end(self) -> Place
        ensures { result ≡ end_at self }
    {
        match self {
            Place::Nowhere => Place::Nowhere,
            Place::Inside => Place::Inside,
            Place::Top => Place::LineEnd,
            _ => Place::End,
        }
    }

    // What a group is that begins here: within a string it is a part of that string.
    fn shape(self, shape: Shape) -> Shape
        ensures { result ≡ shape_at self shape }
    {
        match self {
            Place::Inside => Shape::Phrase,
            _ => shape,
        }
    }
}

impl Level {
    /// The level of an empty document.
    pub(crate) fn top() -> Level
        ensures { result ≡ top_level }
    {
        Level {
            shape: Shape::Top,
            end: Place::Nowhere,
            is_said: true,
            is_kept: true,
            is_within: false,
            is_detail: false,
            is_first: true,
            left: 0,
        }
    }

    /// Whether words have a part.
    pub(crate) fn says(self, to: To) -> bool
        ensures { result ≡ said_at self to }
    {
        match to {
            To::Words | To::Both(_) => self.is_said,
            To::Json(_) => false,
        }
    }

    /// Where a part stands in JSON.
    pub(crate) fn place(self, to: To) -> Place
        ensures { result ≡ place_of self to }
    {
        if self.is_kept {
            place_in(self.shape, self.is_first, to)
        } else {
            Place::Nowhere
        }
    }

    /// Where a group stands in JSON: outside of each group it has a line of its own.
    pub(crate) fn group_place(self, to: To) -> Place
        ensures { result ≡ group_place self to }
    {
        match (self.shape, to) {
            (Shape::Top, To::Json(_) | To::Both(_)) => Place::Top,
            _ => self.place(to),
        }
    }

    /// The level behind a part that stands at a place.
    pub(crate) fn after(self, place: Place) -> Level
        ensures { result ≡ after_part self place }
    {
        let mut level = self;
        level.is_first = level.is_first && !place.is_somewhere();
        level
    }

    /// The level within a group that begins at a place.
    pub(crate) fn inner(self, to: To, place: Place, shape: Shape) -> Level
        ensures { result ≡ inner_level self to place shape }
    {
        Level {
            shape: place.shape(shape),
            end: place.end(),
            is_said: self.says(to),
            is_kept: place.is_somewhere(),
            is_within: self.is_within || self.is_detail,
            is_detail: false,
            is_first: true,
            left: 0,
        }
    }
}
