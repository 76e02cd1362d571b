//! Whether two recordings are of one manifest.
ghost use Rattle.std.specs.Prelude.{◌≡◌, ◌↔◌, IsTrue};
ghost use Rattle.rev_several.specs.Files.{texts};

/// Whether the files of two manifests have the same names and the same bytes, in the same order.
pub fn are_same(one: &[(Vec<u8>, Vec<u8>)], other: &[(Vec<u8>, Vec<u8>)]) -> bool
    ensures { IsTrue result ↔ (texts one.now ≡ texts other.now) }
{
    one == other
}
