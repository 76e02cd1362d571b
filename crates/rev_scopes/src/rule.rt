//! Rules.
ghost use Rattle.std.specs.Prelude.{◌≡◌, [], IfOk, OnOk, OnErr, bytes_eq, position};
ghost use Rattle.rev_scopes.specs.Bindings.{value_of, bound};
ghost use Rattle.rev_scopes.specs.RuleNames.{name_of};
ghost use Rattle.rev_scopes.specs.Seen.{seen_text, seen_texts};

use crate::rule_variable::RuleVariable;
use rev_syntax::{StoredText, Text};
use std::alloc::{AllocError, Global};
use std::marker::Model;
use std::sync::ArcSlice;

// A rule variable and the text that it is bound to.
#[derive(Drop)]
pub(crate) struct RuleText {
    pub(crate) variable: RuleVariable,
    pub(crate) text: StoredText,
}

/// The texts of a rule while its lines are read: each variable is bound once, in the order in which they were first
/// bound.
#[derive(Drop)]
pub struct RuleTexts {
    texts: Vec<RuleText>,
}

impl Model for RuleTexts {
    ghost use Rattle.std.specs.Prelude.{List, ℕ};
    ghost use Rattle.rev_syntax.specs.Texts.{PieceValue};

    ghost Value = { List (List ℕ × List PieceValue) };

    ghost use Rattle.rev_scopes.specs.Seen.{seen_texts};

    ghost view = { λ r. seen_texts r.texts.items };
}

// Where a name is bound.
fn place_of(texts: &[RuleText], name: &[u8]) -> Option<usize>
    ensures { result ≡ position (λ bound. bytes_eq name.now (name_of bound.variable)) texts.now }
{
    texts.iter().position(|bound| name == bound.variable.name())
}

impl RuleTexts {
    /// No texts.
    pub fn new(alloc: Global) -> RuleTexts
        ensures { result ≡ [] }
    {
        RuleTexts {
            texts: Vec::new(alloc),
        }
    }

    /// Binds a variable to a text, also where it had another: of two bindings the later counts.
    ///
    /// # Errors
    /// [`AllocError`] where an allocation was refused; then nothing is changed.
    pub fn bind(&mut self, variable: RuleVariable, text: StoredText) -> Result<(), AllocError>
        ensures bound { OnOk result (self.new ≡ bound (name_of variable) text self.old) }
        ensures err { OnErr result (self.new ≡ self.old) }
    {
        match place_of(&self.texts, variable.name()) {
            Some(place) => self.texts[place] = RuleText { variable, text },
            None => self.texts.push(RuleText { variable, text })?,
        }
        Ok(())
    }

    /// The rule that has these texts.
    ///
    /// # Errors
    /// [`AllocError`] where an allocation was refused.
    pub fn into_rule(self) -> Result<Rule, AllocError>
        ensures { IfOk result (λ rule. rule ≡ self) }
    {
        Ok(Rule {
            texts: ArcSlice::from_vec(self.texts)?,
        })
    }
}

/// A rule: its variables with their texts, which are expanded for each edge. Copies share the texts.
pub struct Rule {
    texts: ArcSlice<RuleText>,
}

impl Drop for Rule {
    fn drop(self) {
        let Rule { texts: _texts } = self;
    }
}

impl Model for Rule {
    ghost use Rattle.std.specs.Prelude.{List, ℕ};
    ghost use Rattle.std.specs.Arc.{arc_slice_items};
    ghost use Rattle.rev_syntax.specs.Texts.{PieceValue};

    ghost Value = { List (List ℕ × List PieceValue) };

    ghost use Rattle.rev_scopes.specs.Seen.{seen_texts};

    ghost view = { λ r. seen_texts (arc_slice_items r.texts) };
}

impl Rule {
    /// The text of a variable, by its name, if the rule binds it.
    pub fn text(&self, name: &[u8]) -> Option<Text<'_>>
        ensures { result ≡ value_of name.now self.now }
    {
        let texts = self.texts.as_slice();
        match place_of(texts, name) {
            Some(place) => Some(texts[place].text.text()),
            None => None,
        }
    }

    // Its texts.
    pub(crate) fn texts(&self) -> &[RuleText]
        ensures { seen_texts result.now ≡ self.now }
    {
        self.texts.as_slice()
    }

    /// An equal rule, which shares the texts of this one.
    ///
    /// # Errors
    /// [`AllocError`] where no more copies can be counted.
    pub fn copy(&self) -> Result<Rule, AllocError>
        ensures { IfOk result (λ copy. copy ≡ self.now) }
    {
        Ok(Rule {
            texts: self.texts.clone()?,
        })
    }
}
