//! The files of a recording, which are read from its folder alone.
use crate::resolved::read_resolved;
use rev_dyndep::Origins;
use rev_fields::{LineFault, read_fields};
use rev_paths::{Name, PathFault};
use rev_program::{
    ProgramFault, ReadFault, Unread, is_folder, push_visible, read_below, read_short, real_folder,
};
use rev_recording::Includes;
use std::alloc::{AllocError, Global};
use std::rt::Files;

// The most bytes that the manifest and the files that it includes may have together. With more the manifest is refused.
const MANIFEST_BYTES: usize = 268_435_456;
// The most bytes of a trace, and of each file beside it.
const TRACE_BYTES: usize = 1_073_741_824;
// The name of a manifest for which the recording has no other.
const MANIFEST: &str = "build.ninja";
// The most files that a manifest may include.
const MOST_FILES: usize = 16_384;

/// The bytes of a recording.
pub struct Recording {
    /// The manifest and the files that it includes, each with its name.
    pub files: Vec<(Vec<u8>, Vec<u8>)>,
    /// The trace.
    pub trace: Vec<u8>,
    /// What the recorder said of dyndep files.
    pub notes: Vec<Vec<u8>>,
    /// The user's own files of the manifest, each with its name, where dyndep files say something of it; none
    /// elsewhere.
    pub own: Vec<(Vec<u8>, Vec<u8>)>,
    /// Which paths of the manifest come from dyndep files.
    pub origins: Origins,
}

// Written, since a derived drop is proved again at each exit of each caller.
impl Drop for Recording {
    fn drop(self) {
        let Recording {
            files: _files,
            trace: _trace,
            notes: _notes,
            own: _own,
            origins: _origins,
        } = self;
    }
}

/// Where a recording is: its folder, as it stands before the name of a file in it, and the name of its manifest, where the
/// recording is named by it.
#[derive(Clone, Copy)]
pub struct Place<'a> {
    folder: &'a str,
    between: &'a str,
    manifest: Option<&'a str>,
}

/// The folder of a recording, which is named by its folder or by its manifest.
pub fn place_of<'a, R: Files>(rt: &R, recording: &'a str) -> Place<'a> {
    if is_folder(rt, recording) {
        let between = if recording.ends_with('/') { "" } else { "/" };
        return Place {
            folder: recording,
            between,
            manifest: None,
        };
    }
    match recording.rsplit_once('/') {
        Some((folder, manifest)) => Place {
            folder,
            between: "/",
            manifest: Some(manifest),
        },
        None => Place {
            folder: "",
            between: "",
            manifest: Some(recording),
        },
    }
}

// The path of a file of a recording.
pub(crate) fn path_of(alloc: Global, place: Place<'_>, name: &str) -> Result<String, AllocError> {
    let mut path = String::new(alloc);
    if !name.starts_with('/') {
        path.push_str(place.folder)?;
        path.push_str(place.between)?;
    }
    path.push_str(name)?;
    Ok(path)
}

// The text of the folder of a recording.
pub(crate) fn folder_of<R: Files + AllocGlobal>(
    rt: &R,
    place: Place<'_>,
) -> Result<Vec<u8>, ReadFault> {
    let mut path = String::new(rt.alloc());
    path.push_str(place.folder)?;
    path.push_str(place.between)?;
    real_folder(rt, &path)
}

// The bytes of a file of a recording, where there are no more than `most`.
fn read_file<R: Files + AllocGlobal>(
    rt: &R,
    place: Place<'_>,
    name: &str,
    most: usize,
) -> Result<Vec<u8>, ReadFault> {
    let folder = folder_of(rt, place)?;
    let path = path_of(rt.alloc(), place, name)?;
    read_short(rt, &folder, &path, most)
}

/// The manifest, the files that it includes, and the trace of a recording.
///
/// # Errors
/// [`ProgramFault::BuildFolder`] where there is a manifest and no trace; [`ProgramFault::Manifest`],
/// [`ProgramFault::Included`] and [`ProgramFault::Trace`] with the reason where such a file is not read, and
/// [`ProgramFault::Beside`] where the file `ninja` is not, which names the manifest. Where the recording has a folder
/// `dyndep`, [`ProgramFault::Dyndep`] where the manifest is not the user's own with what the loaded dyndep files say, and
/// [`ProgramFault::Kept`] where a file there is not read. Else [`ProgramFault::Memory`].
pub fn read_recording<'a, R: Files + AllocGlobal>(
    rt: &R,
    recording: &'a str,
    place: Place<'_>,
) -> Result<Recording, ProgramFault<'a>> {
    let trace = read_trace(rt, recording, place);
    if let Err(ProgramFault::Trace(recording, Unread::Missing)) = trace {
        return Err(without_trace(rt, recording, place)?);
    }
    let trace = trace?;
    let files = read_manifest(rt, recording, place)?;
    let kept = read_resolved(rt, recording, place, &files)?;
    Ok(kept.into_recording(files, trace))
}

// Why a folder without a trace is not read.
fn without_trace<'a, R: Files + AllocGlobal>(
    rt: &R,
    recording: &'a str,
    place: Place<'_>,
) -> Result<ProgramFault<'a>, AllocError> {
    let path = path_of(rt.alloc(), place, place.manifest.unwrap_or(MANIFEST))?;
    match rt.metadata(&path) {
        Ok(metadata) if metadata.is_file() => Ok(ProgramFault::BuildFolder(recording)),
        Ok(_) => Ok(ProgramFault::Trace(recording, Unread::Missing)),
        Err(error) => Ok(ProgramFault::Manifest(recording, Unread::from(error.kind()))),
    }
}

// All bytes of a recording's trace.
fn read_trace<'a, R: Files + AllocGlobal>(
    rt: &R,
    recording: &'a str,
    place: Place<'_>,
) -> Result<Vec<u8>, ProgramFault<'a>> {
    match read_file(rt, place, "trace", TRACE_BYTES) {
        Ok(bytes) => Ok(bytes),
        Err(ReadFault::Memory) => Err(ProgramFault::Memory),
        Err(ReadFault::Unread(why)) => Err(ProgramFault::Trace(recording, why)),
    }
}

/// The bytes of a file that may stand beside a trace, or nothing where it is not there.
///
/// # Errors
/// [`ProgramFault::Beside`] where it is there and is not read: it is not a regular file of the recording's folder, it
/// has more than `most` bytes, or the system refuses it; else [`ProgramFault::Memory`].
pub fn read_beside<'a, R: Files + AllocGlobal>(
    rt: &R,
    recording: &'a str,
    place: Place<'_>,
    name: &'static str,
    most: usize,
) -> Result<Option<Vec<u8>>, ProgramFault<'a>> {
    match read_file(rt, place, name, most) {
        Ok(bytes) => Ok(Some(bytes)),
        Err(ReadFault::Memory) => Err(ProgramFault::Memory),
        Err(ReadFault::Unread(Unread::Missing)) => Ok(None),
        Err(ReadFault::Unread(why)) => Err(ProgramFault::Beside(recording, name, why)),
    }
}

// The bytes of a file that may stand beside a trace; empty where it is not there.
fn read_or_empty<'a, R: Files + AllocGlobal>(
    rt: &R,
    recording: &'a str,
    place: Place<'_>,
    name: &'static str,
) -> Result<Vec<u8>, ProgramFault<'a>> {
    match read_beside(rt, recording, place, name, TRACE_BYTES)? {
        Some(bytes) => Ok(bytes),
        None => Ok(Vec::new(rt.alloc())),
    }
}

/// The file that has the times of a recording; empty where it is not there.
///
/// # Errors
/// As [`read_beside`].
pub fn read_times<'a, R: Files + AllocGlobal>(
    rt: &R,
    recording: &'a str,
    place: Place<'_>,
) -> Result<Vec<u8>, ProgramFault<'a>> {
    read_or_empty(rt, recording, place, "times")
}

/// The file of other names that stands beside a trace; empty where it is not there.
///
/// # Errors
/// As [`read_beside`].
pub fn read_names<'a, R: Files + AllocGlobal>(
    rt: &R,
    recording: &'a str,
    place: Place<'_>,
) -> Result<Vec<u8>, ProgramFault<'a>> {
    read_or_empty(rt, recording, place, "names")
}

// The name of the manifest that a line of the file `ninja` gives, if it gives one.
fn name_in_line(alloc: Global, line: &[u8]) -> Result<Option<String>, AllocError> {
    let fields = match read_fields(alloc, line) {
        Ok(fields) => fields,
        Err(LineFault::Memory) => return Err(AllocError),
        Err(_) => return Ok(None),
    };
    match fields.as_slice() {
        [word, name] if word.as_slice() == b"manifest".as_slice() => match str::from_utf8(name) {
            Ok(name) => Ok(Some(String::from_str(alloc, name)?)),
            Err(_) => Ok(None),
        },
        _ => Ok(None),
    }
}

// The name of the manifest that the file `ninja` of a recording gives, if it gives one.
fn name_in(alloc: Global, text: &[u8]) -> Result<Option<String>, AllocError> {
    for line in text.split(|byte| *byte == b'\n') {
        if line.starts_with(b"manifest ")
            && let Some(name) = name_in_line(alloc, line)?
        {
            return Ok(Some(name));
        }
    }
    Ok(None)
}

// The name of the manifest of a recording: by which the recording is named, else which its file `ninja` has.
fn manifest_name<'a, R: Files + AllocGlobal>(
    rt: &R,
    recording: &'a str,
    place: Place<'_>,
) -> Result<String, ProgramFault<'a>> {
    if let Some(name) = place.manifest {
        return Ok(String::from_str(rt.alloc(), name)?);
    }
    let about = read_or_empty(rt, recording, place, "ninja")?;
    match name_in(rt.alloc(), &about)? {
        Some(name) => Ok(name),
        None => Ok(String::from_str(rt.alloc(), MANIFEST)?),
    }
}

// A manifest, and where the files that it includes are read from.
#[derive(Clone, Copy)]
struct Source<'a, 'b> {
    recording: &'a str,
    place: Place<'b>,
    manifest: &'b str,
    folder: &'b [u8],
}

// The fault of a file that the manifest includes.
fn not_included<'a>(
    alloc: Global,
    source: Source<'a, '_>,
    name: &[u8],
    why: Unread,
) -> Result<ProgramFault<'a>, AllocError> {
    let mut visible = Vec::new(alloc);
    push_visible(&mut visible, name)?;
    let mut text = String::new(alloc);
    text.push_str(str::from_utf8(&visible).unwrap_or(""))?;
    Ok(ProgramFault::Included(source.recording, text, why))
}

// The bytes of a file that the manifest includes; none where it is not there. The manifest is then refused where it
// names the file.
fn read_included<'a, R: Files + AllocGlobal>(
    rt: &R,
    source: Source<'a, '_>,
    name: &[u8],
    most: usize,
) -> Result<Option<Vec<u8>>, ProgramFault<'a>> {
    let Ok(text) = str::from_utf8(name) else {
        return Err(not_included(rt.alloc(), source, name, Unread::NoText)?);
    };
    let path = path_of(rt.alloc(), source.place, text)?;
    match read_below(rt, source.folder, &path, most) {
        Ok(bytes) => Ok(Some(bytes)),
        Err(ReadFault::Memory) => Err(ProgramFault::Memory),
        Err(ReadFault::Unread(Unread::Missing)) => Ok(None),
        Err(ReadFault::Unread(why)) => Err(not_included(rt.alloc(), source, name, why)?),
    }
}

// Adds the files that the manifest includes, of which no more than so many bytes are left.
fn add_included<'a, R: Files + AllocGlobal>(
    rt: &R,
    source: Source<'a, '_>,
    includes: &mut Includes,
    files: &mut Vec<(Vec<u8>, Vec<u8>)>,
    most: usize,
) -> Result<(), ProgramFault<'a>> {
    let alloc = rt.alloc();
    let mut left = most;
    for _ in 0..MOST_FILES {
        let Some(name) = includes.next_missing(alloc)? else {
            break;
        };
        let Some(bytes) = read_included(rt, source, name.as_bytes(), left)? else {
            break;
        };
        let is_more = bytes.len() > left;
        left = left.saturating_sub(bytes.len());
        let text = Vec::from_slice(alloc, name.as_bytes())?;
        if !is_more {
            includes.give(alloc, name, &bytes)?;
        }
        files.push((text, bytes))?;
        if is_more {
            break;
        }
    }
    Ok(())
}

// The manifest of a recording and the files that it includes, each with its name.
fn read_manifest<'a, R: Files + AllocGlobal>(
    rt: &R,
    recording: &'a str,
    place: Place<'_>,
) -> Result<Vec<(Vec<u8>, Vec<u8>)>, ProgramFault<'a>> {
    let folder = match folder_of(rt, place) {
        Ok(folder) => folder,
        Err(ReadFault::Memory) => return Err(ProgramFault::Memory),
        Err(ReadFault::Unread(why)) => return Err(ProgramFault::Manifest(recording, why)),
    };
    let manifest = manifest_name(rt, recording, place)?;
    let path = path_of(rt.alloc(), place, &manifest)?;
    let bytes = match read_below(rt, &folder, &path, MANIFEST_BYTES) {
        Ok(bytes) => bytes,
        Err(ReadFault::Memory) => return Err(ProgramFault::Memory),
        Err(ReadFault::Unread(why)) => return Err(ProgramFault::Manifest(recording, why)),
    };
    let source = Source {
        recording,
        place,
        manifest: &manifest,
        folder: &folder,
    };
    with_included(rt, source, bytes)
}

// A manifest of these bytes and the files that it includes, each with its name.
fn with_included<'a, R: Files + AllocGlobal>(
    rt: &R,
    source: Source<'a, '_>,
    bytes: Vec<u8>,
) -> Result<Vec<(Vec<u8>, Vec<u8>)>, ProgramFault<'a>> {
    let alloc = rt.alloc();
    let mut files = Vec::new(alloc);
    let left = MANIFEST_BYTES.saturating_sub(bytes.len());
    let includes = match Name::new(alloc, source.manifest.as_bytes()) {
        Ok(name) if bytes.len() <= MANIFEST_BYTES => Some(Includes::new(alloc, name, &bytes)?),
        Err(PathFault::Memory) => return Err(ProgramFault::Memory),
        _ => None,
    };
    files.push((Vec::from_slice(alloc, source.manifest.as_bytes())?, bytes))?;
    if let Some(mut includes) = includes {
        add_included(rt, source, &mut includes, &mut files, left)?;
    }
    Ok(files)
}
