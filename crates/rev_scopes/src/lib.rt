//! Scopes of variables and rules, and the expansion of texts.
#![tactic(auto)]

mod bindings;
mod edge;
mod edge_values;
mod expansion;
mod fault;
mod growth;
pub mod laws;
mod rule;
mod rule_variable;
mod scopes;
mod shared_text;
mod slots;

pub use bindings::Bindings;
pub use edge::{EdgeEnv, EdgeVariables};
pub use edge_values::{compared_command, edge_variables};
pub use expansion::{expand, expand_in_block};
pub use fault::{RuleFault, ValueFault};
pub use growth::MAX_VALUE_BYTES;
pub use rule::{Rule, RuleTexts};
pub use rule_variable::RuleVariable;
pub use scopes::Scopes;
pub use shared_text::SharedText;
