//! Touches of folders, which builds make by writing files into them.
use rev_events::Event;
use rev_history::History;
use rev_manifest::Build;
use rev_paths::Name;
use std::alloc::{AllocError, Global};

// Adds the bytes of names.
fn add_names<'a>(paths: &mut Vec<&'a [u8]>, names: &'a [Name]) -> Result<(), AllocError> {
    for name in names {
        paths.push(name.as_bytes())?;
    }
    Ok(())
}

/// The outputs of builds, sorted.
///
/// # Errors
/// [`AllocError`] only where an allocation was refused.
pub(crate) fn sorted_outputs(alloc: Global, builds: &[Build]) -> Result<Vec<&[u8]>, AllocError> {
    let mut paths = Vec::new(alloc);
    for build in builds {
        add_names(&mut paths, build.explicit_outs())?;
        add_names(&mut paths, build.implicit_outs())?;
    }
    paths.sort_unstable();
    Ok(paths)
}

// Whether some bytes stand before others.
fn is_before(one: &[u8], other: &[u8]) -> bool {
    one < other
}

// Whether one of some paths that are sorted begins so.
fn has_beginning(outputs: &[&[u8]], front: &[u8]) -> bool {
    let place = outputs.partition_point(|output| is_before(output, front));
    match outputs.get(place) {
        Some(output) => output.starts_with(front),
        None => false,
    }
}

// Whether one of some paths that are sorted lies in a folder.
fn is_folder(alloc: Global, outputs: &[&[u8]], path: &Name) -> Result<bool, AllocError> {
    let mut front = Vec::from_slice(alloc, path.as_bytes())?;
    front.push(b'/')?;
    Ok(has_beginning(outputs, &front))
}

/// Whether the event of a number touches a folder in which outputs lie.
///
/// # Errors
/// [`AllocError`] only where an allocation was refused.
pub(crate) fn touches_folder(
    alloc: Global,
    history: &History,
    outputs: &[&[u8]],
    number: u32,
) -> Result<bool, AllocError> {
    match history.event(number) {
        Some(Event::Touch { path, .. }) => is_folder(alloc, outputs, path),
        _ => Ok(false),
    }
}
