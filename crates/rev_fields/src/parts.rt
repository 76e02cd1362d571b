//! Parts of a text between separators.
ghost use Rattle.std.specs.Prelude.{◌≡◌, ◌==◌, IfOk};
ghost use Rattle.std.specs.List.{slice_split};
ghost use Rattle.rev_fields.specs.Parts.{slices_of};

use std::alloc::{AllocError, Global};

/// The parts of a text between the bytes that are the separator: one more than there are of these.
pub fn parts_at<'a>(
    alloc: Global,
    text: &'a [u8],
    separator: u8,
) -> Result<Vec<&'a [u8]>, AllocError>
    ensures { IfOk result (λ parts. slices_of parts.items ≡ slice_split (λ b. b == separator) text.now) }
{
    text.split(|b| *b == separator).collect(alloc)
}
