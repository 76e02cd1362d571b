//! Statements as they stand in the file.
ghost use Rattle.std.specs.Prelude.{◌<◌, ◌+◌, length};

use crate::text::Text;

/// `NAME = value`.
#[derive(Debug, Drop)]
pub struct Binding<'a> {
    /// The name.
    pub name: &'a [u8],
    /// The value, without the spaces in front of it.
    pub value: Text<'a>,
    /// The number of its line in the file, from 1.
    pub line: u64,
}

/// What a `build` line says, each list in the order of the line. There is at least one output.
#[derive(Debug, Drop)]
pub struct BuildLine<'a> {
    /// The outputs.
    pub outs: Vec<Text<'a>>,
    /// The outputs behind a `|`.
    pub implicit_outs: Vec<Text<'a>>,
    /// The name of the rule.
    pub rule: &'a [u8],
    /// The inputs.
    pub ins: Vec<Text<'a>>,
    /// The inputs behind a `|`.
    pub implicit: Vec<Text<'a>>,
    /// The inputs behind `||`.
    pub order_only: Vec<Text<'a>>,
    /// The paths behind `|@`.
    pub validations: Vec<Text<'a>>,
    // There is an output.
    pub ghost has_output: { 0 < length outs.items + length implicit_outs.items },
}

/// What a statement says. Bindings stand in the order of their lines, also those that a later one of
/// the same name overrides.
#[derive(Debug, Drop)]
pub enum Form<'a> {
    /// `rule NAME` and the bindings under it, of any names.
    Rule(&'a [u8], Vec<Binding<'a>>),
    /// A `build` line and the bindings under it.
    Build(BuildLine<'a>, Vec<Binding<'a>>),
    /// `pool NAME` and the bindings under it, of any names.
    Pool(&'a [u8], Vec<Binding<'a>>),
    /// `default` and its paths, at least one.
    Default(Vec<Text<'a>>),
    /// `include` and the path of a file.
    Include(Text<'a>),
    /// `subninja` and the path of a file.
    Subninja(Text<'a>),
    /// A binding that stands in the file by itself.
    Variable(Binding<'a>),
}

/// A statement of a file.
#[derive(Debug, Drop)]
pub struct Statement<'a> {
    /// The number of its first line in the file, from 1.
    pub line: u64,
    /// What it says.
    pub form: Form<'a>,
}
