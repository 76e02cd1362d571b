//! Whether the manifest of a recording is the user's own with what the dyndep files say that Ninja loaded.
use crate::files::{Place, Recording, folder_of, path_of, read_beside};
use crate::flaw::{FlawKind, NOTES, Part, Refused, fault_of, flaw_at, loaded_name, own_name};
use crate::notes::{LeftOut, Notes, notes_in};
use crate::plain::plain_of;
use indexmap::IndexMap;
use rev_dyndep::{
    Origins, ReadFault as DyndepRead, Stated, Told, first_other, read as read_dyndep,
};
use rev_manifest::{Build, Manifest, ReadFault as ManifestRead, read as read_manifest};
use rev_paths::{Name, Paths};
use rev_program::{ProgramFault, ReadFault, Unread, is_folder, read_short};
use rev_syntax::{Form, ReadFault as SyntaxRead, first_statement, lines_of};
use std::alloc::{AllocError, Global};
use std::rt::Files;

// The most bytes of a file that is read.
const MOST_BYTES: usize = 1_073_741_824;

// Where a statement of a loaded file stands.
#[derive(Clone, Copy)]
struct Origin {
    // The place of the file among the loaded ones.
    file: usize,
    // The line of the statement.
    line: u64,
}

impl Origin {
    // The fault that the statement is about no build statement that it may be about.
    fn refused(self) -> Refused {
        flaw_at(Part::Loaded(self.file), self.line, FlawKind::NoStatement)
    }
}

// The statements of all loaded files, where each stands, and the place of each by the output that it begins with.
struct Statements {
    told: Vec<Option<Told>>,
    origins: Vec<Origin>,
    places: IndexMap<Name, usize>,
}

impl Drop for Statements {
    fn drop(self) {
        let Statements {
            told: _told,
            origins: _origins,
            places: _places,
        } = self;
    }
}

impl Statements {
    // None so far.
    fn new(alloc: Global) -> Statements {
        Statements {
            told: Vec::new(alloc),
            origins: Vec::new(alloc),
            places: IndexMap::new(alloc),
        }
    }

    // Adds a statement of a file. No other one may begin with its output.
    fn add(&mut self, file: usize, told: Told) -> Result<(), Refused> {
        let origin = Origin {
            file,
            line: told.line(),
        };
        let place = self.told.len();
        let name = told.output().copy()?;
        let first = *self.places.entry(name)?.or_insert(place);
        if first < place {
            return Err(origin.refused());
        }
        self.origins.push(origin)?;
        self.told.push(Some(told))?;
        Ok(())
    }

    // Adds those of a file that has these bytes.
    fn add_file(&mut self, alloc: Global, file: usize, bytes: &[u8]) -> Result<(), Refused> {
        let told = match read_dyndep(alloc, bytes) {
            Ok(told) => told,
            Err(DyndepRead::Memory) => return Err(Refused::Memory),
            Err(DyndepRead::Refused(fault)) => {
                let kind = FlawKind::Loaded(fault.kind);
                return Err(flaw_at(Part::Loaded(file), fault.line, kind));
            }
        };
        for one in told {
            self.add(file, one)?;
        }
        Ok(())
    }

    // Where a statement stands.
    fn origin(&self, place: usize) -> Origin {
        match self.origins.get(place) {
            Some(origin) => *origin,
            None => Origin { file: 0, line: 0 },
        }
    }

    // The place of the statement that speaks of an edge by one of these outputs, where `found` is that by others.
    fn among(&self, outputs: &[Name], found: Option<usize>) -> Result<Option<usize>, Refused> {
        let mut found = found;
        for output in outputs {
            let Some(place) = self.places.get(output).copied() else {
                continue;
            };
            match found {
                Some(first) if first != place => {
                    return Err(self.origin(first.max(place)).refused());
                }
                _ => found = Some(place),
            }
        }
        Ok(found)
    }

    // The place of the statement that speaks of an edge.
    fn of(&self, build: &Build) -> Result<Option<usize>, Refused> {
        let found = self.among(build.explicit_outs(), None)?;
        self.among(build.implicit_outs(), found)
    }

    // Takes a statement, which has to be about an edge that has its file as an input, and gives the file too; nothing
    // where it was taken for another edge, which makes the same output.
    fn take<'a>(
        &mut self,
        place: usize,
        notes: &'a Notes,
        build: &Build,
    ) -> Result<Option<(Told, &'a Name)>, Refused> {
        let origin = self.origin(place);
        let file = match notes.loaded.get(origin.file) {
            Some(file) if has_input(build, file) => file,
            _ => return Err(origin.refused()),
        };
        match self.told.get_mut(place) {
            Some(told) => Ok(with_file(told.take(), file)),
            None => Ok(None),
        }
    }

    // Refuses the first statement that was not taken.
    fn check_all_taken(&self) -> Result<(), Refused> {
        for (told, origin) in self.told.iter().zip(&self.origins) {
            if told.is_some() {
                return Err(origin.refused());
            }
        }
        Ok(())
    }
}

// A statement with its file, where there is one.
fn with_file(told: Option<Told>, file: &Name) -> Option<(Told, &Name)> {
    match told {
        Some(told) => Some((told, file)),
        None => None,
    }
}

// Whether a path is among others.
fn has(paths: &[Name], path: &Name) -> bool {
    paths.iter().any(|other| other == path)
}

// Whether an edge has a file as an input.
fn has_input(build: &Build, file: &Name) -> bool {
    has(build.explicit(), file) || has(build.implicit(), file) || has(build.order_only(), file)
}

// What the manifest leaves out of what is said of an edge, and the first line of the notes that says so.
struct Left {
    outputs: Paths,
    inputs: Paths,
    line: u64,
    is_used: bool,
}

impl Drop for Left {
    fn drop(self) {
        let Left {
            outputs: _outputs,
            inputs: _inputs,
            line: _line,
            is_used: _is_used,
        } = self;
    }
}

impl Left {
    // Nothing, of which this line of the notes speaks.
    fn new(alloc: Global, line: u64) -> Left {
        Left {
            outputs: Paths::new(alloc),
            inputs: Paths::new(alloc),
            line,
            is_used: false,
        }
    }

    // Adds a path.
    fn add(&mut self, one: &LeftOut) -> Result<(), AllocError> {
        let paths = if one.is_output {
            &mut self.outputs
        } else {
            &mut self.inputs
        };
        let _place = paths.intern(&one.path)?;
        Ok(())
    }

    // The fault that its statement does not say a path.
    fn refused(&self) -> Refused {
        flaw_at(Part::Notes, self.line, FlawKind::NoStatement)
    }

    // Takes the paths out of a statement, which has to say them.
    fn take_out(&mut self, alloc: Global, told: &mut Told) -> Result<(), Refused> {
        let (outputs, inputs) = (told.outputs().len(), told.inputs().len());
        told.leave_out(alloc, &self.outputs, &self.inputs)?;
        let less_outputs = outputs.saturating_sub(told.outputs().len()) as u64;
        let less_inputs = inputs.saturating_sub(told.inputs().len()) as u64;
        if less_outputs < self.outputs.len() || less_inputs < self.inputs.len() {
            return Err(self.refused());
        }
        self.is_used = true;
        Ok(())
    }
}

// What is left out, by the first output of the edge.
fn left_by_output(alloc: Global, notes: &Notes) -> Result<IndexMap<Name, Left>, Refused> {
    let mut left = IndexMap::new(alloc);
    for one in &notes.left_out {
        if left.get(&one.output).is_none() {
            left.insert(one.output.copy()?, Left::new(alloc, one.line))?;
        }
        if let Some(left) = left.get_mut(&one.output) {
            left.add(one)?;
        }
    }
    Ok(left)
}

// The first output of an edge.
fn first_output(build: &Build) -> Option<&Name> {
    match build.explicit_outs().first() {
        Some(output) => Some(output),
        None => build.implicit_outs().first(),
    }
}

// Takes out of a statement what is left out of what it says of an edge.
fn leave_out(
    alloc: Global,
    left: &mut IndexMap<Name, Left>,
    build: &Build,
    told: &mut Told,
) -> Result<(), Refused> {
    let Some(output) = first_output(build) else {
        return Ok(());
    };
    match left.get_mut(output) {
        Some(left) => left.take_out(alloc, told),
        None => Ok(()),
    }
}

// Statements in the order of the edges that they speak of, and the file of each.
struct Ordered<'a> {
    told: Vec<Told>,
    files: Vec<&'a Name>,
}

impl Drop for Ordered<'_> {
    fn drop(self) {
        let Ordered {
            told: _told,
            files: _files,
        } = self;
    }
}

impl<'a> Ordered<'a> {
    // No statements.
    fn new(alloc: Global) -> Ordered<'a> {
        Ordered {
            told: Vec::new(alloc),
            files: Vec::new(alloc),
        }
    }

    // Adds a statement of a file.
    fn push(&mut self, told: Told, file: &'a Name) -> Result<(), AllocError> {
        self.told.push(told)?;
        self.files.push(file)?;
        Ok(())
    }

    // Which paths of the edges come from the files.
    fn origins(&self, alloc: Global, plain: &[Build]) -> Result<Origins, AllocError> {
        let mut stated = Vec::new(alloc);
        for (told, file) in self.told.iter().zip(&self.files) {
            stated.push(Stated { file: *file, told })?;
        }
        Origins::new(alloc, plain, &stated)
    }
}

// Adds a statement, without what the manifest leaves out of it, where one is left that speaks of an edge.
fn push_next<'a>(
    alloc: Global,
    notes: &'a Notes,
    statements: &mut Statements,
    left: &mut IndexMap<Name, Left>,
    build: &Build,
    ordered: &mut Ordered<'a>,
) -> Result<(), Refused> {
    let Some(place) = statements.of(build)? else {
        return Ok(());
    };
    if let Some((mut told, file)) = statements.take(place, notes, build)? {
        leave_out(alloc, left, build, &mut told)?;
        ordered.push(told, file)?;
    }
    Ok(())
}

// The statements in the order of the edges that they speak of, without what the manifest leaves out. Each is about one
// edge, and each line of the notes about what is left out is about a path that one says.
fn in_order<'a>(
    alloc: Global,
    notes: &'a Notes,
    statements: &mut Statements,
    plain: &Manifest,
) -> Result<Ordered<'a>, Refused> {
    let mut left = left_by_output(alloc, notes)?;
    let mut ordered = Ordered::new(alloc);
    for build in plain.builds() {
        push_next(alloc, notes, statements, &mut left, build, &mut ordered)?;
    }
    statements.check_all_taken()?;
    for one in left.values() {
        if !one.is_used {
            return Err(one.refused());
        }
    }
    Ok(ordered)
}

// The fault that the manifest is another from the edge of this place on.
fn other_at(plain: &[Build], found: &[Build], place: usize) -> Refused {
    let build = match found.get(place) {
        Some(build) => Some(build),
        None => plain.get(place),
    };
    let (file, line) = match build {
        Some(build) => (build.file() as usize, build.line()),
        None => (0, 0),
    };
    flaw_at(Part::Resolved(file), line, FlawKind::NotResolved)
}

// Whether a file of a manifest has a `default` statement.
fn has_default(alloc: Global, content: &[u8]) -> Result<bool, AllocError> {
    let lines = lines_of(alloc, content)?;
    let mut rest = lines.as_slice();
    for _ in 0..lines.len() {
        match first_statement(alloc, rest) {
            Ok(Some((statement, _))) if matches!(statement.form, Form::Default(_)) => {
                return Ok(true);
            }
            Ok(Some((_, after))) => rest = after,
            Ok(None) | Err(SyntaxRead::Refused(_)) => break,
            Err(SyntaxRead::Memory) => return Err(AllocError),
        }
    }
    Ok(false)
}

// Whether a file of these has a `default` statement.
fn have_default(alloc: Global, files: &[(Vec<u8>, Vec<u8>)]) -> Result<bool, AllocError> {
    for (_, content) in files {
        if has_default(alloc, content)? {
            return Ok(true);
        }
    }
    Ok(false)
}

// A manifest and the files that say it.
#[derive(Clone, Copy)]
struct Source<'a> {
    manifest: &'a Manifest,
    files: &'a [(Vec<u8>, Vec<u8>)],
}

// Whether two manifests have the same defaults. Without a `default` statement the defaults are what no edge needs: that
// is not the same with what dyndep files say.
fn same_defaults(alloc: Global, one: Source<'_>, other: Source<'_>) -> Result<bool, AllocError> {
    if one.manifest.defaults() == other.manifest.defaults() {
        return Ok(true);
    }
    Ok(!have_default(alloc, one.files)? && !have_default(alloc, other.files)?)
}

// Refuses a manifest that is not the plain one with what the statements say; which of its paths come from which file.
fn check(
    alloc: Global,
    notes: &Notes,
    statements: &mut Statements,
    plain: Source<'_>,
    found: Source<'_>,
) -> Result<Origins, Refused> {
    let ordered = in_order(alloc, notes, statements, plain.manifest)?;
    let (own, recorded) = (plain.manifest.builds(), found.manifest.builds());
    if let Some(place) = first_other(alloc, &ordered.told, own, recorded)? {
        return Err(other_at(own, recorded, place));
    }
    if !same_defaults(alloc, plain, found)? {
        return Err(flaw_at(Part::Resolved(0), 0, FlawKind::NotResolved));
    }
    Ok(ordered.origins(alloc, own)?)
}

// A recording, and where its files are read from.
#[derive(Clone, Copy)]
struct Room<'a, 'b> {
    recording: &'a str,
    place: Place<'b>,
    folder: &'b [u8],
}

// The bytes of a file of a recording that has to be there.
fn read_kept<'a, R: Files + AllocGlobal>(
    rt: &R,
    room: Room<'a, '_>,
    name: String,
) -> Result<Vec<u8>, ProgramFault<'a>> {
    let path = path_of(rt.alloc(), room.place, &name)?;
    match read_short(rt, room.folder, &path, MOST_BYTES) {
        Ok(bytes) => Ok(bytes),
        Err(ReadFault::Memory) => Err(ProgramFault::Memory),
        Err(ReadFault::Unread(why)) => Err(ProgramFault::Kept(room.recording, name, why)),
    }
}

// The statements of the loaded files.
fn read_statements<'a, R: Files + AllocGlobal>(
    rt: &R,
    room: Room<'a, '_>,
    files: &[(Vec<u8>, Vec<u8>)],
    count: usize,
) -> Result<Statements, ProgramFault<'a>> {
    let alloc = rt.alloc();
    let mut statements = Statements::new(alloc);
    for file in 0..count {
        let bytes = read_kept(rt, room, loaded_name(alloc, file)?)?;
        if let Err(refused) = statements.add_file(alloc, file, &bytes) {
            return Err(fault_of(alloc, room.recording, files, refused));
        }
    }
    Ok(statements)
}

// The user's own files of a manifest that has these.
fn read_own<'a, R: Files + AllocGlobal>(
    rt: &R,
    room: Room<'a, '_>,
    files: &[(Vec<u8>, Vec<u8>)],
) -> Result<Vec<(Vec<u8>, Vec<u8>)>, ProgramFault<'a>> {
    let alloc = rt.alloc();
    let mut own = Vec::new(alloc);
    for (name, _) in files {
        let bytes = read_kept(rt, room, own_name(alloc, name)?)?;
        own.push((Vec::from_slice(alloc, name)?, bytes))?;
    }
    Ok(own)
}

/// The user's own files of a manifest as the reader of manifests takes them: with another name in the place of
/// `dyndep`. Each line keeps its number, and lines without that name stay as they are.
///
/// # Errors
/// [`AllocError`] only where an allocation was refused.
pub fn plain_files(
    alloc: Global,
    own: &[(Vec<u8>, Vec<u8>)],
) -> Result<Vec<(Vec<u8>, Vec<u8>)>, AllocError> {
    let mut plain = Vec::new(alloc);
    for (name, bytes) in own {
        plain.push((Vec::from_slice(alloc, name)?, plain_of(alloc, bytes)?))?;
    }
    Ok(plain)
}

// The manifest that the user's own files say.
fn plain_in(alloc: Global, own: &[(Vec<u8>, Vec<u8>)]) -> Result<Manifest, Refused> {
    match read_manifest(alloc, own) {
        Ok(plain) => Ok(plain),
        Err(ManifestRead::Memory) => Err(Refused::Memory),
        Err(ManifestRead::Manifest(fault)) => Err(flaw_at(
            Part::Own(fault.file as usize),
            fault.line,
            FlawKind::Manifest(fault.kind),
        )),
    }
}

// Refuses a manifest that is not that of the user's own files with what the statements say; which of its paths come
// from which file.
fn check_own(
    alloc: Global,
    notes: &Notes,
    statements: &mut Statements,
    own: &[(Vec<u8>, Vec<u8>)],
    found: Source<'_>,
) -> Result<Origins, Refused> {
    let files = plain_files(alloc, own)?;
    let manifest = plain_in(alloc, &files)?;
    let plain = Source {
        manifest: &manifest,
        files: &files,
    };
    check(alloc, notes, statements, plain, found)
}

/// What a recording keeps of dyndep files.
pub(crate) struct Kept {
    /// What the recorder said.
    pub(crate) notes: Vec<Vec<u8>>,
    /// The user's own files of the manifest, each with its name in the recording.
    pub(crate) own: Vec<(Vec<u8>, Vec<u8>)>,
    /// Which paths of the manifest come from which file.
    pub(crate) origins: Origins,
}

impl Drop for Kept {
    fn drop(self) {
        let Kept {
            notes: _notes,
            own: _own,
            origins: _origins,
        } = self;
    }
}

impl Kept {
    /// A recording that has it, of a manifest's files and of a trace.
    pub(crate) fn into_recording(
        self,
        files: Vec<(Vec<u8>, Vec<u8>)>,
        trace: Vec<u8>,
    ) -> Recording {
        let Kept {
            notes,
            own,
            origins,
        } = self;
        Recording {
            files,
            trace,
            notes,
            own,
            origins,
        }
    }

    // What the recorder said alone.
    fn said(alloc: Global, notes: Vec<Vec<u8>>) -> Kept {
        Kept {
            notes,
            own: Vec::new(alloc),
            origins: Origins::none(alloc),
        }
    }
}

// Refuses a recording with these notes whose manifest is not the one of the user's own files with what the statements
// say; which of its paths come from which file.
fn checked<'a>(
    alloc: Global,
    recording: &'a str,
    notes: &Notes,
    statements: &mut Statements,
    own: &[(Vec<u8>, Vec<u8>)],
    found: Source<'_>,
) -> Result<Origins, ProgramFault<'a>> {
    match check_own(alloc, notes, statements, own, found) {
        Ok(origins) => Ok(origins),
        Err(refused) => Err(fault_of(alloc, recording, found.files, refused)),
    }
}

// What a recording with these notes keeps, where its manifest is the one of the user's own files with what the loaded
// ones say.
fn kept_in<'a, R: Files + AllocGlobal>(
    rt: &R,
    room: Room<'a, '_>,
    found: Source<'_>,
    notes: Notes,
) -> Result<Kept, ProgramFault<'a>> {
    let mut statements = read_statements(rt, room, found.files, notes.loaded.len())?;
    let own = read_own(rt, room, found.files)?;
    let recording = room.recording;
    let origins = checked(rt.alloc(), recording, &notes, &mut statements, &own, found)?;
    Ok(Kept {
        notes: notes.into_said(),
        own,
        origins,
    })
}

// The same of a manifest that has these files. Where these say none, whoever reads them next says the fault.
fn kept_by<'a, R: Files + AllocGlobal>(
    rt: &R,
    room: Room<'a, '_>,
    files: &[(Vec<u8>, Vec<u8>)],
    notes: Notes,
) -> Result<Kept, ProgramFault<'a>> {
    let alloc = rt.alloc();
    let manifest = match read_manifest(alloc, files) {
        Ok(manifest) => manifest,
        Err(ManifestRead::Memory) => return Err(ProgramFault::Memory),
        Err(ManifestRead::Manifest(_)) => return Ok(Kept::said(alloc, notes.into_said())),
    };
    let found = Source {
        manifest: &manifest,
        files,
    };
    kept_in(rt, room, found, notes)
}

// Refuses a recording that has the folder `dyndep` and no notes there.
fn without_notes<'a, R: Files + AllocGlobal>(
    rt: &R,
    recording: &'a str,
    place: Place<'_>,
) -> Result<(), ProgramFault<'a>> {
    let path = path_of(rt.alloc(), place, "dyndep")?;
    if is_folder(rt, &path) {
        return Err(ProgramFault::Beside(recording, NOTES, Unread::Missing));
    }
    Ok(())
}

/// What a recording keeps of dyndep files whose manifest has these files; nothing where it has no folder `dyndep`.
/// Where it has one, the manifest is the user's own with what the loaded files say, without what the notes leave out.
///
/// # Errors
/// [`ProgramFault::Dyndep`] where it is another, or where a file in the folder has a fault; [`ProgramFault::Kept`] and
/// [`ProgramFault::Beside`] where such a file is not read; else [`ProgramFault::Memory`]. A fault of the recorded
/// manifest itself is not an error here.
pub(crate) fn read_resolved<'a, R: Files + AllocGlobal>(
    rt: &R,
    recording: &'a str,
    place: Place<'_>,
    files: &[(Vec<u8>, Vec<u8>)],
) -> Result<Kept, ProgramFault<'a>> {
    let alloc = rt.alloc();
    let Some(bytes) = read_beside(rt, recording, place, NOTES, MOST_BYTES)? else {
        without_notes(rt, recording, place)?;
        return Ok(Kept::said(alloc, Vec::new(alloc)));
    };
    let notes = match notes_in(alloc, &bytes) {
        Ok(notes) => notes,
        Err(refused) => return Err(fault_of(alloc, recording, files, refused)),
    };
    let folder = match folder_of(rt, place) {
        Ok(folder) => folder,
        Err(ReadFault::Memory) => return Err(ProgramFault::Memory),
        Err(ReadFault::Unread(why)) => return Err(ProgramFault::Beside(recording, NOTES, why)),
    };
    let room = Room {
        recording,
        place,
        folder: &folder,
    };
    kept_by(rt, room, files, notes)
}
