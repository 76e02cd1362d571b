//! Which paths of an observation are hidden.
ghost use Rattle.std.specs.Prelude.{◌≡◌, ◌+◌, List, ℕ, map, IfOk};
ghost use Rattle.std.specs.List.{list_any};
ghost use Rattle.rev_fields.specs.Parts.{slices_of, vectors_of};
ghost use Rattle.rev_filters.specs.Patterns.{hides_by as hides_of, is_hidden as is_hidden_of, parts_of};

use crate::filters::Filters;
use crate::matching::hides_by;
use rev_fields::parts_at;
use rev_paths::Paths;
use std::alloc::{AllocError, Global};

// Whether one of the patterns hides the path of these components.
fn is_hidden_by(
    alloc: Global,
    patterns: &[Vec<u8>],
    components: &[&[u8]],
) -> Result<bool, AllocError>
    ensures { IfOk result (λ hidden. hidden
        ≡ list_any (λ (p : List ℕ). hides_of (parts_of p) (slices_of components.now)) (vectors_of patterns.now)) }
{
    for pattern in patterns {
        let parts = parts_at(alloc, pattern, b'/')?;
        if hides_by(alloc, &parts, components)? {
            return Ok(true);
        }
    }
    Ok(false)
}

/// Whether one of the filters hides a path. It takes time linear in the bytes of the patterns times those of the path.
///
/// # Errors
/// [`AllocError`] only where an allocation was refused.
pub fn is_hidden(alloc: Global, filters: &[Filters], path: &[u8]) -> Result<bool, AllocError>
    ensures { IfOk result (λ hidden. hidden ≡ list_any (λ (f : List (List ℕ)). is_hidden_of f path.now) filters.now) }
{
    let components = parts_at(alloc, path, b'/')?;
    for filter in filters {
        if is_hidden_by(alloc, filter.patterns(), &components)? {
            return Ok(true);
        }
    }
    Ok(false)
}

/// A mark for each path: it is set exactly where one of the filters hides the path. It takes time linear in the bytes of
/// the patterns times the bytes of the paths.
///
/// # Errors
/// [`AllocError`] only where an allocation was refused.
pub fn hidden(alloc: Global, filters: &[Filters], paths: &Paths) -> Result<Vec<bool>, AllocError>
    ensures { IfOk result (λ marks. marks.items
        ≡ map (λ (path : List ℕ). list_any (λ (f : List (List ℕ)). is_hidden_of f path) filters.now) paths.now) }
{
    let mut marks = Vec::new(alloc);
    for place in 0..paths.len() {
        marks.push(is_hidden(alloc, filters, paths.path(place).as_bytes())?)?;
    }
    Ok(marks)
}
