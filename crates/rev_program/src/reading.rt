//! Files that programs read.
use crate::fault::Unread;
use crate::folders::{folder_text, is_below};
use rev_input::{Reader, TakeFault, take_up_to};
use std::alloc::AllocError;
use std::fs::{self, Metadata, OpenFile};
use std::io;
use std::os::unix::fs::MetadataExt;
use std::rt::Files;

/// Why the bytes of a file are not available.
#[derive(Clone, Copy, Debug)]
pub enum ReadFault {
    /// The system refused memory.
    Memory,
    /// The file is not read.
    Unread(Unread),
}

impl From<AllocError> for ReadFault {
    fn from(_e: AllocError) -> ReadFault {
        ReadFault::Memory
    }
}

impl From<Unread> for ReadFault {
    fn from(why: Unread) -> ReadFault {
        ReadFault::Unread(why)
    }
}

impl From<io::Error> for ReadFault {
    fn from(error: io::Error) -> ReadFault {
        match error.kind() {
            io::ErrorKind::OutOfMemory => ReadFault::Memory,
            kind => ReadFault::Unread(Unread::from(kind)),
        }
    }
}

/// Whether a name is the name of a folder.
pub fn is_folder<R: Files>(rt: &R, name: &str) -> bool {
    match rt.metadata(name) {
        Ok(metadata) => metadata.is_dir(),
        Err(_) => false,
    }
}

/// The bytes of a file that the command line names. Of a file with more than `most` bytes come back more than `most`,
/// from its start. The file may be a pipe or a device.
///
/// # Errors
/// [`ReadFault::Memory`] where memory was refused, otherwise [`ReadFault::Unread`] with the reason.
pub fn read_named<R: Files + AllocGlobal>(
    rt: &R,
    name: &str,
    most: usize,
) -> Result<Vec<u8>, ReadFault> {
    let file = fs::open(rt, name)?;
    match take_up_to(rt.alloc(), &mut Reader(file), most) {
        Ok(bytes) => Ok(bytes),
        Err(TakeFault::Memory) => Err(ReadFault::Memory),
        Err(TakeFault::Read) if is_folder(rt, name) => Err(ReadFault::Unread(Unread::Folder)),
        Err(TakeFault::Read) => Err(ReadFault::Unread(Unread::Failed)),
    }
}

/// The prefix of the paths below a folder, as [`read_below`] takes it.
///
/// # Errors
/// As [`read_named`].
pub fn real_folder<R: Files + AllocGlobal>(rt: &R, name: &str) -> Result<Vec<u8>, ReadFault> {
    let real = fs::canonicalize(rt, if name.is_empty() { "." } else { name })?;
    let text = folder_text(rt.alloc(), real.as_str().as_bytes())?;
    Ok(text)
}

// Refuses what is not a regular file.
fn check_regular(metadata: &Metadata) -> Result<(), Unread> {
    if metadata.is_dir() {
        return Err(Unread::Folder);
    }
    if !metadata.is_file() {
        return Err(Unread::Special);
    }
    Ok(())
}

// Opens a regular file below a folder. The kit opens files without O_NOFOLLOW and O_NONBLOCK, so the file is looked at
// before: an open of a pipe would wait for a writer. What was opened then has to be what was looked at.
fn open_below<R: Files + AllocGlobal>(
    rt: &R,
    folder: &[u8],
    name: &str,
) -> Result<(R::File, u64), ReadFault> {
    let real = fs::canonicalize(rt, name)?;
    if !is_below(folder, real.as_str().as_bytes()) {
        return Err(ReadFault::Unread(Unread::Outside));
    }
    let seen = fs::symlink_metadata(rt, real.as_str())?;
    check_regular(&seen)?;
    let file = fs::open(rt, real.as_str())?;
    let opened = file.metadata()?;
    check_regular(&opened)?;
    if seen.dev() != opened.dev() || seen.ino() != opened.ino() {
        return Err(ReadFault::Unread(Unread::Failed));
    }
    Ok((file, opened.len()))
}

/// The bytes of a regular file below a folder, whose prefix [`real_folder`] gave. Of a file with more than `most` bytes
/// come back more than `most`, from its start. Links are followed as long as they stay below the folder. No byte of
/// another file is read, and opening a pipe does not wait.
///
/// # Errors
/// As [`read_named`]; [`Unread::Outside`] where the file is outside of the folder, [`Unread::Special`] where it is a
/// pipe, a socket or a device.
pub fn read_below<R: Files + AllocGlobal>(
    rt: &R,
    folder: &[u8],
    name: &str,
    most: usize,
) -> Result<Vec<u8>, ReadFault> {
    let (file, _) = open_below(rt, folder, name)?;
    match take_up_to(rt.alloc(), &mut Reader(file), most) {
        Ok(bytes) => Ok(bytes),
        Err(TakeFault::Memory) => Err(ReadFault::Memory),
        Err(TakeFault::Read) => Err(ReadFault::Unread(Unread::Failed)),
    }
}

/// The bytes of a regular file below a folder, as [`read_below`] gives them, for a file of at most `most` bytes.
///
/// # Errors
/// As [`read_below`]; [`Unread::Long`] where the file has more than `most` bytes. No byte is read where the system
/// tells the file's length before.
pub fn read_short<R: Files + AllocGlobal>(
    rt: &R,
    folder: &[u8],
    name: &str,
    most: usize,
) -> Result<Vec<u8>, ReadFault> {
    let (file, length) = open_below(rt, folder, name)?;
    if length > most as u64 {
        return Err(ReadFault::Unread(Unread::Long));
    }
    match take_up_to(rt.alloc(), &mut Reader(file), most) {
        Ok(bytes) if bytes.len() > most => Err(ReadFault::Unread(Unread::Long)),
        Ok(bytes) => Ok(bytes),
        Err(TakeFault::Memory) => Err(ReadFault::Memory),
        Err(TakeFault::Read) => Err(ReadFault::Unread(Unread::Failed)),
    }
}
