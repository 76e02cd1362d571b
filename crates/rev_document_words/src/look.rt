//! How words look.

/// How words look.
#[derive(Clone, Copy)]
pub struct Look {
    /// Whether words have colours.
    pub is_coloured: bool,
    /// Whether details are printed. Otherwise a line says how many there are.
    pub is_all: bool,
}
