//! Tests of bytes.
ghost use Rattle.std.specs.Prelude.{◌≡◌};
ghost use Rattle.rev_manifest.specs.Names.{is_empty};

/// Whether the text has no bytes.
pub(crate) fn is_empty(bytes: &[u8]) -> bool
    ensures { result ≡ is_empty bytes.now }
{
    match bytes.first() {
        None => true,
        Some(_) => false,
    }
}
