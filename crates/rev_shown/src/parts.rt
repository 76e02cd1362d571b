//! Words that a name or a number follows.
ghost use Rattle.std.specs.Prelude.{◌≡◌, ◌++◌, decimal, OnOk};
ghost use Rattle.rev_shown.specs.Shown.{shown};

use crate::names::push_shown;
use rev_fields::push_number;
use rev_paths::Name;
use std::alloc::AllocError;

/// Appends words and then a name.
pub(crate) fn push_named(text: &mut Vec<u8>, words: &[u8], name: &Name) -> Result<(), AllocError>
    ensures { OnOk result (text.new.items ≡ text.old.items ++ words.now ++ shown name.now) }
{
    text.extend_from_slice(words)?;
    push_shown(text, name.as_bytes())
}

/// Appends words and then a number.
pub(crate) fn push_counted(text: &mut Vec<u8>, words: &[u8], number: u64) -> Result<(), AllocError>
    ensures { OnOk result (text.new.items ≡ text.old.items ++ words.now ++ decimal number) }
{
    text.extend_from_slice(words)?;
    push_number(text, number)
}
