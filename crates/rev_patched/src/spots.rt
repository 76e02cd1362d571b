//! The places of a build statement at which paths are added to its parts.

/// The end of a part of a statement.
#[derive(Clone, Copy)]
pub(crate) struct Spot {
    /// The number of the text's bytes before the place.
    pub(crate) end: usize,
    /// Whether the sign of what is added stands there already.
    pub(crate) has_sign: bool,
}

/// The ends of the parts of a statement.
#[derive(Clone, Copy)]
pub(crate) struct Spots {
    /// That of the outputs, and whether a `|` is among them.
    pub(crate) outputs: Spot,
    /// That of the explicit and implicit inputs, and whether a `|` is among them.
    pub(crate) inputs: Spot,
    /// That of the order-only inputs, and whether they have their `||`.
    pub(crate) orders: Spot,
}

// A part of a statement.
#[derive(Clone, Copy, PartialEq, Eq)]
enum Part {
    Outputs,
    Inputs,
    Orders,
    Validations,
}

// What was read of a statement.
#[derive(Clone, Copy)]
struct Seen {
    part: Part,
    // Whether the last byte was a `$` that takes away the next one's meaning.
    is_escaped: bool,
    // Whether the last byte was a `|` that is no part of another sign yet.
    is_bar: bool,
    // Whether the statement ended.
    is_ended: bool,
    spots: Spots,
}

impl Seen {
    // What is known behind a byte that says something, which ends at a place.
    fn solid(self, end: usize) -> Seen {
        let mut seen = self;
        match self.part {
            Part::Outputs => seen.spots.outputs.end = end,
            Part::Inputs => {
                seen.spots.inputs.end = end;
                seen.spots.orders.end = end;
            }
            Part::Orders => seen.spots.orders.end = end,
            Part::Validations => {}
        }
        seen
    }

    // What is known where the last byte was the sign `|` alone, which ends at a place.
    fn bar(self, end: usize) -> Seen {
        let mut seen = self.solid(end);
        seen.is_bar = false;
        match self.part {
            Part::Outputs => seen.spots.outputs.has_sign = true,
            Part::Inputs => seen.spots.inputs.has_sign = true,
            Part::Orders | Part::Validations => {}
        }
        seen
    }

    // What is known behind the second byte of a sign, where it is one.
    fn sign(self, byte: u8, end: usize) -> Option<Seen> {
        if !self.is_bar {
            return None;
        }
        let mut seen = self;
        seen.is_bar = false;
        if byte == b'|' {
            seen.part = Part::Orders;
            seen.spots.orders.has_sign = true;
            return Some(seen.solid(end));
        }
        if byte == b'@' {
            seen.part = Part::Validations;
            return Some(seen);
        }
        None
    }

    // What is known behind a byte that belongs to no sign. It ends at a place.
    fn plain(self, byte: u8, end: usize) -> Seen {
        let mut seen = self;
        match byte {
            b'$' => seen.is_escaped = true,
            b'|' => seen.is_bar = true,
            b'\n' => seen.is_ended = true,
            b' ' | b'\r' => {}
            b':' if self.part == Part::Outputs => {
                seen.part = Part::Inputs;
                seen = seen.solid(end);
            }
            _ => seen = seen.solid(end),
        }
        seen
    }

    // What is known behind a byte after a `$`. It ends at a place. The end of a line there says nothing.
    fn escaped(self, byte: u8, end: usize) -> Seen {
        let mut seen = self;
        if byte == b'\r' {
            return seen;
        }
        seen.is_escaped = false;
        if byte == b'\n' {
            return seen;
        }
        seen.solid(end)
    }

    // What is known behind a byte. It ends at a place.
    fn with(self, byte: u8, end: usize) -> Seen {
        if self.is_escaped {
            return self.escaped(byte, end);
        }
        if let Some(seen) = self.sign(byte, end) {
            return seen;
        }
        let seen = if self.is_bar {
            self.bar(end.saturating_sub(1))
        } else {
            self
        };
        seen.plain(byte, end)
    }
}

/// The spots of the statement that begins at a place of a text.
pub(crate) fn spots_of(text: &[u8], start: usize) -> Spots {
    let none = Spot {
        end: start,
        has_sign: false,
    };
    let mut seen = Seen {
        part: Part::Outputs,
        is_escaped: false,
        is_bar: false,
        is_ended: false,
        spots: Spots {
            outputs: none,
            inputs: none,
            orders: none,
        },
    };
    let (_, rest) = text.split_at(start.min(text.len()));
    for (number, byte) in rest.iter().enumerate() {
        if seen.is_ended {
            return seen.spots;
        }
        let end = usize::saturating_add(usize::saturating_add(start, number), 1);
        seen = seen.with(*byte, end);
    }
    seen.spots
}
