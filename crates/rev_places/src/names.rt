//! Names of one file.
ghost use Rattle.std.specs.Prelude.{◌≡◌, ◌++◌, ◌∷◌, [], bytes_eq, map, option_and_then, slice_get, IfOk, OnOk};
ghost use Rattle.std.specs.List.{list_any};
ghost use Rattle.std.specs.Option.{option_copied, option_to_list};
ghost use Rattle.rev_places.specs.Names.{all_names_of, other_names_of, other_of, own_name_of, own_names_in, own_of};

use indexmap::IndexMap;
use rev_paths::Name;
use std::alloc::{AllocError, Global};

/// The own name of the file to which a path leads: that which `names` has of it, and else the path.
pub fn own_name<'a>(names: &'a IndexMap<Name, Name>, path: &'a Name) -> &'a Name
    ensures { result.now ≡ own_name_of names.now.entries path.now }
{
    match names.get(path) {
        Some(own) => own,
        None => path,
    }
}

// The own name of the file to which a path leads, where it is not the path.
fn own_of_path<'a>(names: &'a IndexMap<Name, Name>, path: &Name) -> Option<&'a Name>
    ensures { option_copied result ≡ own_of names.now.entries path.now }
{
    names.get(path)
}

// Adds a name, where there is one.
fn push_if(found: &mut Vec<Name>, name: Option<&Name>) -> Result<(), AllocError>
    ensures { OnOk result (found.new.items ≡ found.old.items ++ option_to_list (option_copied name.entry)) }
{
    if let Some(name) = name {
        found.push(name.copy()?)?;
    }
    Ok(())
}

/// Adds the own names of files to which some paths lead that are other names, in the order of the paths.
///
/// # Errors
/// [`AllocError`] only where an allocation was refused.
pub fn push_own_names(
    names: &IndexMap<Name, Name>,
    paths: &[Name],
    found: &mut Vec<Name>,
) -> Result<(), AllocError>
    ensures { OnOk result (found.new.items ≡ found.old.items ++ own_names_in names.now.entries paths.now) }
{
    for path in paths {
        push_if(found, own_of_path(names, path))?;
    }
    Ok(())
}

// The own names of the files to which some paths lead.
fn own_names(
    alloc: Global,
    names: &IndexMap<Name, Name>,
    paths: &[Name],
) -> Result<Vec<Name>, AllocError>
    ensures { IfOk result (λ found. found.items ≡ map (own_name_of names.now.entries) paths.now) }
{
    let mut found = Vec::new(alloc);
    for path in paths {
        found.push(own_name(names, path).copy()?)?;
    }
    Ok(found)
}

// Whether a name is one of these.
fn is_among(owns: &[Name], own: &Name) -> bool
    ensures { result ≡ list_any (λ one. bytes_eq one own.now) owns.now }
{
    owns.iter().any(|one| one == own)
}

// The name at a place, where it is another name of a file that has one of these own names.
fn other_at<'a>(names: &'a IndexMap<Name, Name>, owns: &[Name], place: usize) -> Option<&'a Name>
    ensures { option_copied result ≡ option_and_then (other_of owns.now) (slice_get names.now.entries place) }
{
    match names.get_index(place) {
        Some((name, own)) if is_among(owns, own) => Some(name),
        _ => None,
    }
}

// Adds the other names of the files that have these own names.
fn push_other_names(
    names: &IndexMap<Name, Name>,
    owns: &[Name],
    found: &mut Vec<Name>,
) -> Result<(), AllocError>
    ensures { OnOk result (found.new.items ≡ found.old.items ++ other_names_of owns.now names.now.entries) }
{
    for place in 0..names.len() {
        push_if(found, other_at(names, owns, place))?;
    }
    Ok(())
}

/// All names of the file to which a path leads: its own name first.
///
/// # Errors
/// As [`all_names`].
pub fn names_of_file(
    alloc: Global,
    names: &IndexMap<Name, Name>,
    path: &Name,
) -> Result<Vec<Name>, AllocError>
    ensures { IfOk result (λ found. found.items ≡ all_names_of names.now.entries (path.now ∷ [])) }
{
    let mut paths = Vec::new(alloc);
    paths.push(path.copy()?)?;
    all_names(alloc, names, &paths)
}

/// All names of the files to which some paths lead: their own names, in the order of the paths, and then each other name
/// of these files. It takes time linear in the names, for each path.
///
/// # Errors
/// [`AllocError`] only where an allocation was refused.
pub fn all_names(
    alloc: Global,
    names: &IndexMap<Name, Name>,
    paths: &[Name],
) -> Result<Vec<Name>, AllocError>
    ensures { IfOk result (λ found. found.items ≡ all_names_of names.now.entries paths.now) }
{
    let owns = own_names(alloc, names, paths)?;
    let mut found = own_names(alloc, names, paths)?;
    push_other_names(names, &owns, &mut found)?;
    Ok(found)
}
