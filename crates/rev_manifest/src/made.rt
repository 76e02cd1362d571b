//! How many bytes values make.
ghost use Rattle.std.specs.Prelude.{◌≡◌, ◌<◌, length, map, sum};
ghost use Rattle.rev_syntax.specs.Seen.{seen_binding, seen_form};
ghost use Rattle.rev_scopes.specs.Scopes.{variable_in};
ghost use Rattle.rev_manifest.specs.Made.{is_variable, bytes_made, all_made, made_by, left_of};

use crate::depth::bytes_of;
use rev_scopes::Scopes;
use rev_syntax::{Binding, Form, Piece, Text};

// Whether a text is one variable and nothing else.
fn is_variable(text: &Text<'_>) -> bool
    ensures { result ≡ is_variable text.now }
{
    match text.first_piece() {
        Some((Piece::Variable(_), rest)) => rest.is_empty(),
        Some((Piece::Literal(_), _)) => false,
        None => false,
    }
}

/// What is left of a room when so many bytes are made, one after another.
pub(crate) fn left_of_all(lengths: &[usize], room: usize) -> Option<usize>
    ensures { result ≡ left_of room (sum lengths.now) }
{
    let mut left = room;
    for bytes in lengths {
        left = left.checked_sub(*bytes)?;
    }
    Some(left)
}

// What is left of a room when the value of a text is made.
fn left_of_text(text: &Text<'_>, scopes: &Scopes, scope: usize, room: usize) -> Option<usize>
    requires { scope < length scopes.now }
    ensures { result ≡ left_of room (bytes_made (variable_in scopes.now scope) text.now) }
{
    if is_variable(text) {
        return Some(room);
    }
    let mut left = room;
    let mut rest = text.copy();
    while let Some((piece, after)) = rest.first_piece() {
        left = left.checked_sub(bytes_of(piece, scopes, scope).len())?;
        rest = after;
    }
    Some(left)
}

// What is left of a room when the values of bindings are made.
fn left_of_bindings(
    bindings: &[Binding<'_>],
    scopes: &Scopes,
    scope: usize,
    room: usize,
) -> Option<usize>
    requires { scope < length scopes.now }
    ensures { result ≡ left_of room (all_made (variable_in scopes.now scope) (map seen_binding bindings.now)) }
{
    let mut left = room;
    for binding in bindings {
        left = left_of_text(&binding.value, scopes, scope, left)?;
    }
    Some(left)
}

/// What is left of a room when the values that a statement binds are made. They are not made for it: their lengths are
/// those of what they are made of.
pub(crate) fn left_of_form(
    form: &Form<'_>,
    scopes: &Scopes,
    scope: usize,
    room: usize,
) -> Option<usize>
    requires { scope < length scopes.now }
    ensures { result ≡ left_of room (made_by (variable_in scopes.now scope) (seen_form form.now)) }
{
    match form {
        Form::Rule(_, _) => Some(room),
        Form::Build(_, bindings) => left_of_bindings(bindings, scopes, scope, room),
        Form::Pool(_, bindings) => left_of_bindings(bindings, scopes, scope, room),
        Form::Default(_) => Some(room),
        Form::Include(_) => Some(room),
        Form::Subninja(_) => Some(room),
        Form::Variable(binding) => left_of_text(&binding.value, scopes, scope, room),
    }
}
