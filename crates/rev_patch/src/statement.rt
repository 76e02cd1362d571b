//! The parts of a build statement's lines, and the place where order-only inputs are added.
ghost use Rattle.std.specs.Prelude.{◌≡◌, ◌<◌, ◌≤◌, suc, None, drop, length, map};
ghost use Rattle.std.specs.List.{list_any};
ghost use Rattle.rev_patch.specs.Additions.{texts_of};
ghost use Rattle.rev_patch.specs.Lines.{line_of};
ghost use Rattle.rev_patch.specs.Read.{first_token, seen_with, signs_with};
ghost use Rattle.rev_patch.specs.Statement.{goes_on, has_validations, is_open, is_order, is_solid, is_validations, place_in, plain_token, put_at, size, solid_in, spot_or, statement, tokens};

use crate::lines::Row;

/// A part of a line of a build statement.
#[derive(Clone, Copy)]
pub(crate) enum Token {
    /// A byte after a `$`, which takes away its meaning.
    Escaped(u8),
    /// A `$` at the end of the line.
    Dollar,
    /// The sign `||` before order-only inputs.
    Order,
    /// The sign `|@` before validations.
    Validations,
    /// A space, or a CR at the end of the line.
    Blank,
    /// Any other byte.
    Plain,
}

/// What a line has.
#[derive(Clone, Copy)]
pub(crate) struct Signs {
    /// Whether the line has the sign `||`.
    pub(crate) has_order: bool,
    /// Whether the line has the sign `|@`.
    pub(crate) has_validations: bool,
    /// The number of bytes up to the end of the last part before the validations that is not blank. `None` where all is
    /// blank.
    pub(crate) last: Option<usize>,
    /// Whether the statement goes on in the next line.
    pub(crate) goes_on: bool,
}

// The part that a byte is which belongs to no sign.
fn plain_token(byte: u8) -> Token
    ensures { result ≡ plain_token byte }
{
    if byte == b' ' || byte == b'\r' {
        Token::Blank
    } else {
        Token::Plain
    }
}

// The part that a line begins with, by its first byte and what stands behind it.
fn first_token(first: u8, behind: &[u8]) -> Token
    ensures value { result ≡ first_token first behind.now }
    ensures fits { size result ≤ suc (length behind.now) }
    ensures some { 0 < size result }
{
    match behind {
        [] => {
            if first == b'$' {
                Token::Dollar
            } else {
                plain_token(first)
            }
        }
        [next, ..] => {
            if first == b'$' {
                Token::Escaped(*next)
            } else if first == b'|' && *next == b'|' {
                Token::Order
            } else if first == b'|' && *next == b'@' {
                Token::Validations
            } else {
                plain_token(first)
            }
        }
    }
}

// How many bytes a part has.
fn size(token: Token) -> usize
    ensures { result ≡ size token }
{
    match token {
        Token::Dollar | Token::Blank | Token::Plain => 1,
        Token::Escaped(_) | Token::Order | Token::Validations => 2,
    }
}

fn is_order(token: Token) -> bool
    ensures { result ≡ is_order token }
{
    match token {
        Token::Order => true,
        _ => false,
    }
}

fn is_validations(token: Token) -> bool
    ensures { result ≡ is_validations token }
{
    match token {
        Token::Validations => true,
        _ => false,
    }
}

// Whether a statement goes on behind a line that ends with this part.
fn is_open(token: Token) -> bool
    ensures { result ≡ is_open token }
{
    match token {
        Token::Dollar => true,
        Token::Escaped(byte) => byte == b'\r',
        _ => false,
    }
}

// Whether a part says something.
fn is_solid(token: Token) -> bool
    ensures { result ≡ is_solid token }
{
    match token {
        Token::Escaped(byte) => byte != b'\r',
        Token::Order | Token::Plain => true,
        Token::Dollar | Token::Validations | Token::Blank => false,
    }
}

// What was seen once one more part was read, which ends behind so many bytes.
fn signs_with(signs: Signs, end: usize, token: Token) -> Signs
    ensures { result ≡ signs_with signs end token }
{
    let last = if signs.has_validations || !is_solid(token) {
        signs.last
    } else {
        Some(end)
    };
    Signs {
        has_order: signs.has_order || is_order(token),
        has_validations: signs.has_validations || is_validations(token),
        last,
        goes_on: is_open(token),
    }
}

/// What a line of a statement has.
pub(crate) fn signs_of(line: &[u8]) -> Signs
    ensures order { result.has_order ≡ list_any is_order (tokens line.now) }
    ensures validations { result.has_validations ≡ has_validations line.now }
    ensures last { result.last ≡ solid_in line.now }
    ensures goes_on { result.goes_on ≡ goes_on (tokens line.now) }
{
    let mut signs = Signs {
        has_order: false,
        has_validations: false,
        last: None,
        goes_on: false,
    };
    let mut at = 0;
    let mut rest = line;
    while let Some((first, behind)) = rest.split_first() {
        let token = first_token(*first, behind);
        let (read, left) = rest.split_at(size(token));
        at += read.len();
        signs = signs_with(signs, at, token);
        rest = left;
    }
    signs
}

/// A place in a text.
#[derive(Clone, Copy)]
pub(crate) struct Spot {
    /// The line, from 0.
    pub(crate) line: usize,
    /// The number of the line's bytes before the place.
    pub(crate) at: usize,
}

/// The place at which order-only inputs are added to a statement.
#[derive(Clone, Copy)]
pub(crate) struct Place {
    /// The line, from 0.
    pub(crate) line: usize,
    /// The number of the line's bytes before the place.
    pub(crate) at: usize,
    /// Whether the statement has the sign `||`.
    pub(crate) has_sign: bool,
}

// What was seen of a statement.
#[derive(Clone, Copy)]
struct Seen {
    // Whether the sign of order-only inputs stands there.
    has_order: bool,
    // Whether the sign of validations does.
    has_validations: bool,
    // The end of the last part that says something before the validations.
    last: Option<Spot>,
    // Whether it goes on behind that.
    goes_on: bool,
}

// The spot of a line; another where there is none.
fn spot_or(line: usize, at: Option<usize>, other: Option<Spot>) -> Option<Spot>
    ensures { result ≡ spot_or line at other }
{
    match at {
        Some(at) => Some(Spot { line, at }),
        None => other,
    }
}

// What was seen once one more line was read.
fn seen_with(seen: Seen, number: usize, line: &[u8]) -> Seen
    ensures { result ≡ seen_with seen number line.now }
{
    let signs = signs_of(line);
    let last = if seen.has_validations {
        seen.last
    } else {
        spot_or(number, signs.last, seen.last)
    };
    Seen {
        has_order: seen.has_order || signs.has_order,
        has_validations: seen.has_validations || signs.has_validations,
        last,
        goes_on: signs.goes_on,
    }
}

// Where order-only inputs are added, by what was seen of the whole statement.
fn put_at(seen: Seen) -> Option<Place>
    ensures { result ≡ put_at seen.has_order seen.last }
{
    match seen.last {
        Some(spot) => Some(Place {
            line: spot.line,
            at: spot.at,
            has_sign: seen.has_order,
        }),
        None => None,
    }
}

/// The place at which order-only inputs are added to the statement that begins at line `first`: after all of it that is
/// not blank and stands before its validations. `None` where the text has no such line, or the statement is blank.
pub(crate) fn place_of(rows: &[Row<'_>], first: usize) -> Option<Place>
    ensures { result ≡ place_in first (statement (drop first (texts_of (map line_of rows.now)))) }
{
    if first >= rows.len() {
        return None;
    }
    let (_, rest) = rows.split_at(first);
    let mut seen = Seen {
        has_order: false,
        has_validations: false,
        last: None,
        goes_on: true,
    };
    for (number, row) in rest.iter().enumerate() {
        seen = seen_with(seen, first + number, row.old);
        if !seen.goes_on {
            return put_at(seen);
        }
    }
    put_at(seen)
}
