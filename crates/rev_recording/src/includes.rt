//! The files that a manifest includes, in the order in which its reader needs them.
ghost use Rattle.std.specs.Prelude.{◌≡◌, ◌||◌, List, ℕ, false, bytes_eq, IfOk, IfSome, OnOk};
ghost use Rattle.rev_manifest.specs.Names.{has_path};
ghost use Rattle.rev_scopes.specs.Scopes.{variable_in};
ghost use Rattle.rev_recording.specs.Includes.{IsNamed};

use indexmap::IndexSet;
use rev_paths::{Name, PathFault};
use rev_scopes::{Scopes, ValueFault, expand};
use rev_syntax::{Binding, Form, Line, Piece, ReadFault, Text, first_statement, lines_of};
use std::alloc::{AllocError, Global};
use std::marker::Model;

// How many files deep the reader goes, the manifest among them.
const MOST_DEEP: usize = 17;
// The most bytes that the reader goes through, those of a file counted each time that it is included.
const MOST_BYTES: usize = 268_435_456;
// The most bytes of values that the reader makes.
const MOST_VALUE_BYTES: usize = 17_179_869_184;

// A file that was given. It is settled when it was gone through to its end, and neither it nor a file that it includes
// binds a variable or has one in a name: it then names the same files wherever it is included again, and changes nothing
// for those behind it, so it need not be gone through again.
struct GivenFile {
    bytes: usize,
    lines: Vec<Line>,
    is_settled: bool,
}

impl Drop for GivenFile {
    fn drop(self) {
        let GivenFile {
            bytes: _bytes,
            lines: _lines,
            is_settled: _is_settled,
        } = self;
    }
}

// A file whose statements are gone through: which one it is, the line that comes next, the scope of its variables, and
// whether nothing was met yet for which the file is not settled.
#[derive(Clone, Copy)]
struct Visit {
    file: usize,
    next: usize,
    scope: usize,
    settles: bool,
}

// A file that a statement names, the scope that the file is read in, and whether the name has no variable.
#[derive(Drop)]
struct Inclusion {
    name: Name,
    scope: usize,
    is_literal: bool,
}

// What comes of the next statement of a file.
#[derive(Drop)]
enum Step {
    // It names no file, and the file goes on so many lines before its end.
    Plain(usize),
    // It binds a variable, and the file goes on so many lines before its end.
    Binds(usize),
    // It names a file, and its own file goes on so many lines before its end.
    Includes(Inclusion, usize),
    // There is none.
    End,
    // The reader refuses it.
    Refused,
}

/// A walk over the statements of a manifest in reading order, with the statements of an included file at the place of
/// the `include`. It finds the files that the manifest includes. Variables are read by the calls that `rev_manifest`
/// uses.
pub struct Includes {
    // The names of the files, each at the place of its file.
    names: IndexSet<Name>,
    files: Vec<GivenFile>,
    visits: Vec<Visit>,
    scopes: Scopes,
    // The scope in which the file that was asked for last is read.
    scope: usize,
    room: usize,
    value_room: usize,
}

impl Drop for Includes {
    fn drop(self) {
        let Includes {
            names: _names,
            files: _files,
            visits: _visits,
            scopes: _scopes,
            scope: _scope,
            room: _room,
            value_room: _value_room,
        } = self;
    }
}

impl Model for Includes {
    ghost use Rattle.std.specs.Prelude.{List, ℕ};

    ghost Value = { List (List ℕ) };

    // The names of the files that were given.
    ghost view = { λ i. i.names.keys };
}

// The name by which the reader looks for the file of a path; none where the reader refuses the path.
fn name_of(
    alloc: Global,
    path: &Text<'_>,
    scopes: &Scopes,
    scope: usize,
) -> Result<Option<Name>, AllocError>
    ensures { IfOk result (λ found. IfSome found (λ name. IsNamed (variable_in scopes.now scope) path.now name)) }
{
    let value = match expand(alloc, path.copy(), scopes, scope) {
        Ok(value) => value,
        Err(ValueFault::Memory) => return Err(AllocError),
        Err(_) => return Ok(None),
    };
    match Name::new(alloc, value.as_bytes()) {
        Ok(name) => Ok(Some(name)),
        Err(PathFault::Memory) => Err(AllocError),
        Err(_) => Ok(None),
    }
}

// Whether a text is one variable and nothing else, whose value is then shared.
fn is_variable(text: &Text<'_>) -> bool {
    match text.first_piece() {
        Some((Piece::Variable(_), rest)) => rest.is_empty(),
        _ => false,
    }
}

// Whether no variable stands in a text.
fn is_literal(text: &Text<'_>) -> bool {
    let mut rest = text.copy();
    while let Some((piece, after)) = rest.first_piece() {
        if matches!(piece, Piece::Variable(_)) {
            return false;
        }
        rest = after;
    }
    true
}

// Binds a variable; whether the reader does so.
fn bind(
    alloc: Global,
    binding: &Binding<'_>,
    scopes: &mut Scopes,
    scope: usize,
    value_room: &mut usize,
) -> Result<bool, AllocError> {
    let value = match expand(alloc, binding.value.copy(), scopes, scope) {
        Ok(value) => value,
        Err(ValueFault::Memory) => return Err(AllocError),
        Err(_) => return Ok(false),
    };
    if !is_variable(&binding.value) {
        let Some(left) = value_room.checked_sub(value.as_bytes().len()) else {
            return Ok(false);
        };
        *value_room = left;
    }
    if scope < scopes.len() {
        scopes.bind(alloc, scope, binding.name, value)?;
    }
    Ok(true)
}

// A scope in which the file that a `subninja` names is read.
fn nested(alloc: Global, scopes: &mut Scopes, scope: usize) -> Result<usize, AllocError> {
    let parent = if scope < scopes.len() {
        Some(scope)
    } else {
        None
    };
    scopes.add(alloc, parent)
}

// What comes of a statement after which its file goes on so many lines before its end.
fn step_by(
    alloc: Global,
    form: &Form<'_>,
    left: usize,
    scopes: &mut Scopes,
    scope: usize,
    value_room: &mut usize,
) -> Result<Step, AllocError> {
    match form {
        Form::Variable(binding) => {
            if bind(alloc, binding, scopes, scope, value_room)? {
                return Ok(Step::Binds(left));
            }
            Ok(Step::Refused)
        }
        Form::Include(path) => {
            let Some(name) = name_of(alloc, path, scopes, scope)? else {
                return Ok(Step::Refused);
            };
            let is_literal = is_literal(path);
            let inclusion = Inclusion {
                name,
                scope,
                is_literal,
            };
            Ok(Step::Includes(inclusion, left))
        }
        Form::Subninja(path) => {
            let Some(name) = name_of(alloc, path, scopes, scope)? else {
                return Ok(Step::Refused);
            };
            let scope = nested(alloc, scopes, scope)?;
            let is_literal = is_literal(path);
            let inclusion = Inclusion {
                name,
                scope,
                is_literal,
            };
            Ok(Step::Includes(inclusion, left))
        }
        Form::Rule(_, _) | Form::Build(_, _) | Form::Pool(_, _) | Form::Default(_) => {
            Ok(Step::Plain(left))
        }
    }
}

// What comes of the first statement of lines.
fn first_step(
    alloc: Global,
    lines: &[Line],
    scopes: &mut Scopes,
    scope: usize,
    value_room: &mut usize,
) -> Result<Step, AllocError> {
    match first_statement(alloc, lines) {
        Ok(None) => Ok(Step::End),
        Ok(Some((statement, after))) => step_by(
            alloc,
            &statement.form,
            after.len(),
            scopes,
            scope,
            value_room,
        ),
        Err(ReadFault::Memory) => Err(AllocError),
        Err(ReadFault::Refused(_)) => Ok(Step::Refused),
    }
}

impl Includes {
    /// A walk over the manifest of this name, before its first statement.
    ///
    /// # Errors
    /// [`AllocError`] only where an allocation was refused.
    pub fn new(alloc: Global, name: Name, bytes: &[u8]) -> Result<Includes, AllocError>
        ensures { IfOk result (λ i. (path : List ℕ) → has_path i path ≡ bytes_eq path name) }
    {
        let mut scopes = Scopes::new(alloc);
        let scope = scopes.add(alloc, None)?;
        let mut includes = Includes {
            names: IndexSet::new(alloc),
            files: Vec::new(alloc),
            visits: Vec::new(alloc),
            scopes,
            scope,
            room: MOST_BYTES,
            value_room: MOST_VALUE_BYTES,
        };
        includes.give(alloc, name, bytes)?;
        Ok(includes)
    }

    // Adds a file, and goes into it.
    fn add(&mut self, alloc: Global, bytes: &[u8]) -> Result<(), AllocError>
        ensures { self.new ≡ self.old }
    {
        let file = self.files.len();
        self.files.push(GivenFile {
            bytes: bytes.len(),
            lines: lines_of(alloc, bytes)?,
            is_settled: false,
        })?;
        let scope = self.scope;
        self.enter(file, scope)
    }

    // Goes into a file that was given and is not settled, where the reader does so too, and else ends.
    fn enter(&mut self, file: usize, scope: usize) -> Result<(), AllocError>
        ensures { self.new ≡ self.old }
    {
        let bytes = match self.files.get(file) {
            Some(given) if given.is_settled => return Ok(()),
            Some(given) => given.bytes,
            None => 0,
        };
        if bytes > self.room || self.visits.len() >= MOST_DEEP {
            self.visits.clear();
            return Ok(());
        }
        self.room -= bytes;
        self.visits.push(Visit {
            file,
            next: 0,
            scope,
            settles: true,
        })?;
        Ok(())
    }

    // What comes of the next statement of the innermost file.
    fn take_step(&mut self, alloc: Global, visit: Visit) -> Result<Step, AllocError>
        ensures { self.new ≡ self.old }
    {
        let Some(given) = self.files.get(visit.file) else {
            return Ok(Step::End);
        };
        let Some(lines) = given.lines.get(visit.next..) else {
            return Ok(Step::End);
        };
        first_step(
            alloc,
            lines,
            &mut self.scopes,
            visit.scope,
            &mut self.value_room,
        )
    }

    // Has the innermost file go on so many lines before its end; whether it settles by what was met there.
    fn go_on(&mut self, visit: Visit, left: usize, settles: bool)
        ensures { self.new ≡ self.old }
    {
        let lines = match self.files.get(visit.file) {
            Some(given) => given.lines.len(),
            None => 0,
        };
        if let Some(last) = self.visits.last_mut() {
            last.next = lines.saturating_sub(left);
            last.settles = visit.settles && settles;
        }
    }

    // Leaves the innermost file at its end.
    fn leave(&mut self, visit: Visit)
        ensures { self.new ≡ self.old }
    {
        let _ended = self.visits.pop();
        if !visit.settles {
            if let Some(last) = self.visits.last_mut() {
                last.settles = false;
            }
        } else if let Some(given) = self.files.get_mut(visit.file) {
            given.is_settled = true;
        }
    }

    // Goes on after a step, and gives the file that was not given, if the step named one.
    fn after(&mut self, visit: Visit, step: Step) -> Result<Option<Name>, AllocError>
        ensures missing { IfOk result (λ found. IfSome found (λ name. has_path self.new name ≡ false)) }
        ensures kept { self.new ≡ self.old }
    {
        match step {
            Step::Plain(left) => self.go_on(visit, left, true),
            Step::Binds(left) => self.go_on(visit, left, false),
            Step::End => self.leave(visit),
            Step::Refused => self.visits.clear(),
            Step::Includes(inclusion, left) => {
                self.go_on(visit, left, inclusion.is_literal);
                let Some(file) = self.names.get_index_of(&inclusion.name) else {
                    self.scope = inclusion.scope;
                    return Ok(Some(inclusion.name));
                };
                self.enter(file, inclusion.scope)?;
            }
        }
        Ok(None)
    }

    /// The next included file that was not given yet. `None` where the manifest includes no other file, or its reader
    /// refuses it before the next one.
    ///
    /// # Errors
    /// [`AllocError`] only where an allocation was refused.
    pub fn next_missing(&mut self, alloc: Global) -> Result<Option<Name>, AllocError>
        ensures missing { IfOk result (λ found. IfSome found (λ name. has_path self.new name ≡ false)) }
        ensures kept { self.new ≡ self.old }
    {
        for _ in 0..u64::MAX {
            let Some(visit) = self.visits.last().copied() else {
                break;
            };
            let step = self.take_step(alloc, visit)?;
            if let Some(name) = self.after(visit, step)? {
                return Ok(Some(name));
            }
        }
        Ok(None)
    }

    /// Gives the bytes of the file that [`Includes::next_missing`] named last, under that name.
    ///
    /// # Errors
    /// [`AllocError`] only where an allocation was refused.
    pub fn give(&mut self, alloc: Global, name: Name, bytes: &[u8]) -> Result<(), AllocError>
        ensures { OnOk result ((path : List ℕ)
            → has_path self.new path ≡ (has_path self.old path || bytes_eq path name)) }
    {
        self.names.insert(name)?;
        self.add(alloc, bytes)
    }
}
