//! The files of a command beside the outputs of its edge.
ghost use Rattle.std.specs.Prelude.{◌≡◌};
ghost use Rattle.rev_clashes.specs.Clashes.{path_in};

use rev_manifest::Build;

/// A file of a command beside the outputs of its edge, at a path that its rule names.
#[derive(Clone, Copy, Debug, PartialEq, Eq)]
pub enum SideFile {
    /// The list of what the command read, which it leaves (Ninja manual, depfile).
    Depfile,
    /// The file with the command's arguments, which Ninja writes before the command runs (Ninja manual, response
    /// files).
    ResponseFile,
}

impl SideFile {
    /// The path of an edge's file of this kind, as its rule says; empty where it has none.
    pub fn path_in(self, build: &Build) -> &[u8]
        ensures { result.now ≡ path_in self build.now }
    {
        match self {
            SideFile::Depfile => build.depfile(),
            SideFile::ResponseFile => build.rspfile(),
        }
    }
}
