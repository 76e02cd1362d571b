//! One finding.
use rev_baseline::Id;
use rev_shown::push_shown;
use std::alloc::{AllocError, Global};

/// A finding as formats have it.
#[derive(Drop)]
pub struct Item<'a> {
    /// Its stable name.
    pub id: Id,
    /// The word of its kind.
    pub kind: &'static str,
    /// Whether the order of commands can decide by it whether a build fails, or what it leaves. Where that is false,
    /// the finding can only make a next build stale.
    pub is_error: bool,
    /// The path that it is about; empty where it is about a command alone.
    pub path: &'a [u8],
    /// The first output of its maker; empty where it is about one command.
    pub maker: &'a [u8],
    /// The first output of its user.
    pub user: &'a [u8],
    /// The name of the file that has the build statement to be mended; empty where it is not known.
    pub file: &'a [u8],
    /// The line of that statement, from 1.
    pub line: u64,
    /// The lines that people read about it.
    pub text: String,
}

impl Item<'_> {
    /// Its kind and the path, or the user where it is about no path, as one line.
    ///
    /// # Errors
    /// [`AllocError`] only where an allocation was refused.
    pub(crate) fn title(&self, alloc: Global) -> Result<Vec<u8>, AllocError> {
        let mut title = Vec::from_slice(alloc, self.kind.as_bytes())?;
        title.extend_from_slice(b" ")?;
        if self.path.is_empty() {
            push_shown(&mut title, self.user)?;
        } else {
            push_shown(&mut title, self.path)?;
        }
        Ok(title)
    }
}
