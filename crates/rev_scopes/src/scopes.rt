//! Scopes of variables and rules.
ghost use Rattle.std.specs.Prelude.{◌≡◌, ◌<◌, ◌↔◌, ◌++◌, ◌∷◌, [], None, length, IsTrue, IfOk, OnOk, OnErr, IsErrOf, IfSome};
ghost use Rattle.std.specs.Option.{option_copied};
ghost use Rattle.rev_scopes.specs.Scopes.{AreNested, binding_in, empty_scope, scope_at, variable_in, rule_in, with_variable, with_rule, with_scope, is_taken};
ghost use Rattle.rev_scopes.specs.Bindings.{value_of};

use crate::bindings::Bindings;
use crate::fault::RuleFault;
use crate::rule::Rule;
use crate::shared_text::SharedText;
use indexmap::IndexMap;
use std::alloc::{AllocError, Global};
use std::marker::Model;

// A scope.
struct Scope {
    parent: Option<usize>,
    variables: Bindings,
    rules: IndexMap<Vec<u8>, Rule>,
}

impl Drop for Scope {
    fn drop(self) {
        let Scope {
            parent: _parent,
            variables: _variables,
            rules: _rules,
        } = self;
    }
}

impl Model for Scope {
    ghost use Rattle.rev_scopes.specs.Bindings.{seen_entries};
    ghost use Rattle.rev_scopes.specs.Scopes.{ScopeValue};

    ghost Value = { ScopeValue };

    ghost view = { λ s. record { parent = s.parent; variables = s.variables; rules = seen_entries s.rules.entries } };
}

impl Scope {
    // A scope before anything is bound in it.
    fn new(alloc: Global, parent: Option<usize>) -> Scope
        ensures { result ≡ empty_scope parent }
    {
        Scope {
            parent,
            variables: Bindings::new(alloc),
            rules: IndexMap::new(alloc),
        }
    }

    // The number of its parent.
    fn parent(&self) -> Option<usize>
        ensures { result ≡ self.now.parent }
    {
        self.parent
    }

    // Its own variable.
    fn variable(&self, name: &[u8]) -> Option<&SharedText>
        ensures { option_copied result ≡ value_of name.now self.now.variables }
    {
        self.variables.shared(name)
    }

    // Its own rule.
    fn rule(&self, name: &[u8]) -> Option<&Rule>
        ensures { option_copied result ≡ value_of name.now self.now.rules }
    {
        self.rules.get(name)
    }

    // Binds a variable.
    fn bind(&mut self, alloc: Global, name: &[u8], value: SharedText) -> Result<(), AllocError>
        ensures bound { OnOk result (self.new ≡ with_variable name.now value self.old) }
        ensures err { OnErr result (self.new ≡ self.old) }
    {
        self.variables.bind(alloc, name, value)?;
        Ok(())
    }

    // Adds a rule.
    fn add_rule(&mut self, alloc: Global, name: &[u8], rule: Rule) -> Result<(), AllocError>
        ensures added { OnOk result (self.new ≡ with_rule name.now rule self.old) }
        ensures err { OnErr result (self.new ≡ self.old) }
    {
        let key = Vec::from_slice(alloc, name)?;
        self.rules.insert(key, rule)?;
        Ok(())
    }

    // Whether no further rule may have the name.
    fn is_taken(&self, name: &[u8]) -> bool
        ensures { result ≡ is_taken name.now self.now }
    {
        name == b"phony".as_slice() || self.rule(name).is_some()
    }
}

/// The scopes of manifests, each with a number, from 0 in the order in which they were added. A scope has variables and
/// rules, and a parent or none; a parent's number is below its scope's (Ninja manual, scoping).
pub struct Scopes {
    scopes: Vec<Scope>,
}

impl Drop for Scopes {
    fn drop(self) {
        let Scopes { scopes: _scopes } = self;
    }
}

impl Model for Scopes {
    ghost use Rattle.std.specs.Prelude.{List};
    ghost use Rattle.rev_scopes.specs.Scopes.{ScopeValue, AreNested};

    ghost Value = { List ScopeValue };

    ghost view = { λ s. s.scopes.items };

    ghost invariant = { λ s. AreNested s.scopes.items };
}

impl Scopes {
    /// No scopes.
    pub fn new(alloc: Global) -> Scopes
        ensures { result ≡ [] }
    {
        Scopes {
            scopes: Vec::new(alloc),
        }
    }

    /// How many scopes there are.
    pub fn len(&self) -> usize
        ensures { result ≡ length self.now }
    {
        self.scopes.len()
    }

    /// Adds a scope whose parent is one of those that are there, or that has none, and gives its number.
    ///
    /// # Errors
    /// [`AllocError`] where an allocation was refused; then nothing is changed.
    pub fn add(&mut self, alloc: Global, parent: Option<usize>) -> Result<usize, AllocError>
        requires { IfSome parent (λ number. number < length self.old) }
        ensures number { IfOk result (λ number. number ≡ length self.old) }
        ensures added { OnOk result (self.new ≡ self.old ++ empty_scope parent ∷ []) }
        ensures err { OnErr result (self.new ≡ self.old) }
    {
        let number = self.len();
        self.scopes.push(Scope::new(alloc, parent))?;
        Ok(number)
    }

    /// Gives a variable of a scope a value, also where it had another: of two bindings the later counts.
    ///
    /// # Errors
    /// [`AllocError`] where an allocation was refused; then nothing is changed.
    pub fn bind(
        &mut self,
        alloc: Global,
        scope: usize,
        name: &[u8],
        value: SharedText,
    ) -> Result<(), AllocError>
        requires { scope < length self.old }
        ensures bound { OnOk result (self.new ≡ with_scope scope (with_variable name.now value) self.old) }
        ensures err { OnErr result (self.new ≡ self.old) }
    {
        let here = &mut self.scopes[scope];
        here.bind(alloc, name, value)?;
        Ok(())
    }

    /// The value of a variable: in the scope, else in its parents, the nearest first. A variable that is nowhere is
    /// empty, and a scope that is not there has none.
    pub fn variable(&self, scope: usize, name: &[u8]) -> &[u8]
        ensures { result.now ≡ variable_in self.now scope name.now }
    {
        match self.binding(scope, name) {
            Some(value) => value.as_bytes(),
            None => b"",
        }
    }

    // What a variable is bound to, to be shared.
    #[tactic(auto, using(crate::proofs::ScopeLemmas::no_binding))]
    pub(crate) fn binding(&self, scope: usize, name: &[u8]) -> Option<&SharedText>
        ensures { option_copied result ≡ binding_in self.now scope name.now }
    {
        if scope >= self.len() {
            return None;
        }
        variable_from(&self.scopes, scope, name)
    }

    /// Adds a rule to a scope.
    ///
    /// # Errors
    /// [`RuleFault::DoubleRule`] where this very scope has a rule of that name, or the name is `phony`; a parent may
    /// have a rule of that name. [`RuleFault::Memory`] only where an allocation was refused. After an error nothing has
    /// changed.
    pub fn add_rule(
        &mut self,
        alloc: Global,
        scope: usize,
        name: &[u8],
        rule: Rule,
    ) -> Result<(), RuleFault>
        requires { scope < length self.old }
        ensures added { OnOk result (self.new ≡ with_scope scope (with_rule name.now rule) self.old) }
        ensures double { IsErrOf result RuleFault.DoubleRule
            ↔ IsTrue (is_taken name.now (scope_at self.old scope)) }
        ensures err { OnErr result (self.new ≡ self.old) }
    {
        let here = &mut self.scopes[scope];
        if here.is_taken(name) {
            return Err(RuleFault::DoubleRule);
        }
        here.add_rule(alloc, name, rule)?;
        Ok(())
    }

    /// The rule of a name: in the scope, else in its parents, the nearest first. A scope that is not there has none.
    #[tactic(auto, using(crate::proofs::ScopeLemmas::no_rule))]
    pub fn rule(&self, scope: usize, name: &[u8]) -> Option<&Rule>
        ensures { option_copied result ≡ rule_in self.now scope name.now }
    {
        if scope >= self.len() {
            return None;
        }
        rule_from(&self.scopes, scope, name)
    }
}

// What a variable is bound to.
fn variable_from<'a>(scopes: &'a [Scope], scope: usize, name: &[u8]) -> Option<&'a SharedText>
    requires within { scope < length scopes.now }
    requires nested { AreNested scopes.now }
    ensures { option_copied result ≡ binding_in scopes.now scope name.now }
{
    let mut number = scope;
    loop {
        let here = &scopes[number];
        if let Some(value) = here.variable(name) {
            return Some(value);
        }
        match here.parent() {
            Some(parent) => number = parent,
            None => return None,
        }
    }
}

// The rule of a name.
fn rule_from<'a>(scopes: &'a [Scope], scope: usize, name: &[u8]) -> Option<&'a Rule>
    requires within { scope < length scopes.now }
    requires nested { AreNested scopes.now }
    ensures { option_copied result ≡ rule_in scopes.now scope name.now }
{
    let mut number = scope;
    loop {
        let here = &scopes[number];
        if let Some(rule) = here.rule(name) {
            return Some(rule);
        }
        match here.parent() {
            Some(parent) => number = parent,
            None => return None,
        }
    }
}
