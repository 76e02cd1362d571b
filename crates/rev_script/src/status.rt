//! How a run ends.

/// How a run ended, which is the program's exit status.
#[derive(Clone, Copy, Debug, PartialEq, Eq)]
pub enum Status {
    /// 0: the script was run.
    Success,
    /// 1: the manifest, its graph, the trace or the script has a fault, and its line is the report.
    Fault,
}
