//! The user's own manifest, where dyndep files say something of the recorded one.
use rev_manifest::Manifest;
use rev_patched::writable_output;
use rev_paths::Name;

/// The user's own manifest: that of the recording without what dyndep files say. Its edges have the numbers of the
/// recording's, and each line of its files has the number of the recorded line.
#[derive(Clone, Copy)]
pub struct Own<'a> {
    /// The files as the user has them, which a patch changes.
    pub files: &'a [(Vec<u8>, Vec<u8>)],
    /// The same files with another name in the place of `dyndep`, as the reader of manifests takes them.
    pub plain: &'a [(Vec<u8>, Vec<u8>)],
    /// The manifest that these say.
    pub manifest: &'a Manifest,
}

impl<'a> Own<'a> {
    /// The first output of an edge's own line that can be written on a build line.
    pub(crate) fn output(self, edge: u32) -> Option<&'a Name> {
        writable_output(self.manifest.builds().get(edge as usize)?)
    }
}

/// The files that a patch changes: the user's own, where they are others than the recorded ones.
pub(crate) fn with_own<'a>(
    recorded: &'a [(Vec<u8>, Vec<u8>)],
    own: Option<Own<'a>>,
) -> &'a [(Vec<u8>, Vec<u8>)] {
    match own {
        Some(own) => own.files,
        None => recorded,
    }
}
