//! Why a command was not observed whole.
use crate::text::Text;

/// Why a command was not observed whole.
#[derive(Clone, Copy, Debug, PartialEq, Eq)]
pub enum FlagKind {
    /// A process was still running when Ninja ended, or when the observation did.
    Cut,
    /// A process ran on after its command's end, and changed something.
    Late,
    /// It connected to an address, bound it or sent to it.
    Socket,
    /// It used a message queue, semaphores or shared memory, a lock of a file that others have to do with, or the
    /// standard input of another command.
    Ipc,
    /// It read what /proc shows of a process that is not the command's.
    Proc,
    /// It changed its root, its mounts or its namespaces.
    Namespace,
    /// It used io_uring.
    Uring,
    /// It asked for attributes that no `stat` shows, or set them.
    Attributes,
    /// Another process answers its calls.
    Notified,
    /// It used a path of more than 4,096 bytes from the root.
    Deep,
    /// A path could not be found out.
    Unresolved,
    /// It made a call that is in no list of the observer's.
    Unknown,
    /// Another edge has the same command, and which of the two runs was whose is not certain.
    Twin,
}

/// One reason why a command was not observed whole, with what caused it. Each text is empty where the cause has none.
#[derive(Debug, Drop)]
pub struct Flag {
    /// The reason.
    pub kind: FlagKind,
    /// The name of the system call.
    pub call: Text,
    /// The last component of the program's path.
    pub program: Text,
    /// A path, an address or a number.
    pub text: Text,
}
