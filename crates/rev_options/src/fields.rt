//! What the command line says.

/// What the command line says.
#[derive(Debug, Drop)]
pub struct Options<'a> {
    /// The name of the manifest's file.
    pub manifest: &'a str,
    /// The name of the trace's file.
    pub trace: &'a str,
    /// The name of the script's file.
    pub script: &'a str,
    /// Whether each lane of the trace runs on a thread of its own.
    pub workers: bool,
    /// Whether the program writes the trace in version 2 and no report.
    pub migrate: bool,
    /// The files that the manifest may include, in the order of the command line.
    pub files: Vec<&'a str>,
}
