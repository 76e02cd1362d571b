//! Paths as fields of lines.
ghost use Rattle.std.specs.Prelude.{◌≡◌, ◌++◌, All, OnOk};
ghost use Rattle.std.specs.List.{flat_map};
ghost use Rattle.rev_fields.specs.Faults.{Answers};
ghost use Rattle.rev_fields.specs.Fields.{field_text, spaced};
ghost use Rattle.rev_fields.specs.Lines.{path_of, paths_of};
ghost use Rattle.rev_paths.specs.Canonical.{IsCanonical};
ghost use Rattle.rev_fields.specs.Parts.{lent_of};

use crate::faults::LineFault;
use crate::fields::next_field;
use rev_paths::Name;
use std::alloc::{AllocError, Global};
use std::borrow::CowSlice;

/// The path that a text names.
pub fn path(alloc: Global, text: &[u8]) -> Result<Name, LineFault>
    ensures { Answers result (λ name. name) (path_of text.now) }
{
    Ok(Name::new(alloc, text)?)
}

/// The paths that texts name.
pub fn paths(alloc: Global, texts: &[CowSlice<'_, u8>]) -> Result<Vec<Name>, LineFault>
    ensures { Answers result (λ names. names.items) (paths_of (lent_of texts.now)) }
{
    let mut names = Vec::with_capacity(alloc, texts.len())?;
    for text in texts {
        let name = path(alloc, text)?;
        names.push(name)?;
    }
    Ok(names)
}

/// Adds the fields of paths, each with a space before it.
pub fn next_paths(line: &mut Vec<u8>, paths: &[Name]) -> Result<(), AllocError>
    ensures text { OnOk result (line.new.items
        ≡ line.old.items ++ flat_map (λ path. spaced (field_text path)) paths.now) }
    ensures canonical { OnOk result (All IsCanonical paths.now) }
{
    for path in paths {
        next_field(line, path.as_bytes())?;
    }
    Ok(())
}
