//! The syntax of manifests: from a file's bytes to its statements.
//!
//! A file is cut into lines, lines are put together to statements, and each statement is
//! read by itself. What a statement means, such as which rule a name stands for, is not
//! asked here.
#![tactic(auto)]

mod bytes;
mod fault;
mod forms;
pub mod laws;
mod lines;
mod outputs;
mod paths;
mod reader;
mod statement;
mod text;

pub use fault::{ReadFault, SyntaxFault, SyntaxKind};
pub use lines::{Line, lines_of};
pub use reader::first_statement;
pub use statement::{Binding, BuildLine, Form, Statement};
pub use text::{Piece, StoredText, Text};
