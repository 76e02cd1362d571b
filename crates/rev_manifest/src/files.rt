//! The files that are given.
ghost use Rattle.std.specs.Prelude.{◌≡◌, List, ℕ, option_map, bytes_eq, IfOk, OnOk};
ghost use Rattle.std.specs.Option.{option_copied};
ghost use Rattle.indexmap.specs.IndexMap.{get};
ghost use Rattle.rev_manifest.specs.Files.{bytes_left, is_named, file_of, content_at};
ghost use Rattle.rev_manifest.specs.Places.{first_place};
ghost use Rattle.rev_manifest.specs.Seen.{seen_files};

use indexmap::IndexMap;
use rev_paths::{Name, PathFault};
use std::alloc::{AllocError, Global};
use std::marker::Model;

/// The most files that may be given.
const MAX_FILES: usize = 16_384;

/// The most bytes that all files may have.
const MAX_BYTES: usize = 268_435_456;

/// The files that are given. A name finds the first file that has it.
#[derive(Drop)]
pub(crate) struct Files<'a> {
    files: &'a [(Vec<u8>, Vec<u8>)],
    places: IndexMap<Name, usize>,
}

impl<'a> Model for Files<'a> {
    ghost use Rattle.std.specs.Prelude.{◌≡◌, List, ℕ, bytes_eq};
    ghost use Rattle.indexmap.specs.IndexMap.{get};
    ghost use Rattle.rev_manifest.specs.Files.{file_of};
    ghost use Rattle.rev_manifest.specs.Seen.{seen_files};

    ghost Value = { List (List ℕ × List ℕ) };

    ghost view = { λ f. seen_files f.files.now };

    ghost invariant = { λ f. (path : List ℕ) → get bytes_eq f.places path ≡ file_of path (seen_files f.files.now) };
}

/// How many bytes may still be read where these files are given: none where more files or more bytes are given than may
/// be.
pub(crate) fn bytes_left(files: &[(Vec<u8>, Vec<u8>)]) -> Option<usize>
    ensures { result ≡ bytes_left (seen_files files.now) }
{
    if files.len() > MAX_FILES {
        return None;
    }
    let mut left = MAX_BYTES;
    for file in files {
        let bytes = file.1.len();
        if bytes > left {
            return None;
        }
        left -= bytes;
    }
    Some(left)
}

// Notes the place of a file, unless an earlier one has its name. A name without a canonical form is none.
fn add_file(
    alloc: Global,
    places: &mut IndexMap<Name, usize>,
    place: usize,
    file: &(Vec<u8>, Vec<u8>),
) -> Result<(), AllocError>
    ensures { OnOk result ((path : List ℕ)
        → get bytes_eq places.new path
        ≡ first_place (get bytes_eq places.old path)
        (is_named path (file.now.0.items, file.now.1.items)) place) }
{
    match Name::new(alloc, &file.0) {
        Err(PathFault::Memory) => Err(AllocError),
        Err(PathFault::EmptyPath) => Ok(()),
        Err(PathFault::LongPath) => Ok(()),
        Ok(name) => {
            if places.contains_key(&name) {
                return Ok(());
            }
            places.insert(name, place)?;
            Ok(())
        }
    }
}

// The places of all names.
fn places_of(
    alloc: Global,
    files: &[(Vec<u8>, Vec<u8>)],
) -> Result<IndexMap<Name, usize>, AllocError>
    ensures { IfOk result (λ places. (path : List ℕ)
        → get bytes_eq places path ≡ file_of path (seen_files files.now)) }
{
    let mut places = IndexMap::new(alloc);
    for (place, file) in files.iter().enumerate() {
        add_file(alloc, &mut places, place, file)?;
    }
    Ok(places)
}

impl<'a> Files<'a> {
    /// These files.
    pub(crate) fn new(
        alloc: Global,
        files: &'a [(Vec<u8>, Vec<u8>)],
    ) -> Result<Files<'a>, AllocError>
        ensures { IfOk result (λ given. given ≡ seen_files files.now) }
    {
        let places = places_of(alloc, files)?;
        Ok(Files { files, places })
    }

    /// The place of the first file of a name.
    pub(crate) fn find(&self, name: &Name) -> Option<usize>
        ensures { result ≡ file_of name.now self.now }
    {
        self.places.get(name).copied()
    }

    /// The content of the file at a place.
    pub(crate) fn content(&self, place: usize) -> &'a [u8]
        ensures { result.now ≡ content_at self.now place }
    {
        match self.files.get(place) {
            Some(file) => file.1.as_slice(),
            None => b"",
        }
    }
}
