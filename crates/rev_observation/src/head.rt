//! What an observation says besides entries and blocks.
use crate::text::Text;
use rev_paths::Name;

/// What observed.
#[derive(Debug, Drop)]
pub struct Observer {
    /// `strace-VERSION`, `ptrace`, or another name.
    pub name: Text,
    /// The release of the kernel from which the observer's lists of calls were taken.
    pub release: Text,
    /// The machine, as `x86-64` or `arm64`.
    pub machine: Text,
}

/// A device, or a file of procfs or sysfs, whose content is not in the file.
#[derive(Drop)]
pub struct Hidden {
    /// Its path.
    pub path: Name,
    /// How many commands had to do with it.
    pub commands: u64,
}
