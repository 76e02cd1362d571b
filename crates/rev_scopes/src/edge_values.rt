//! Expansion at the end, edge by edge.
ghost use Rattle.std.specs.Prelude.{◌≡◌, ◌≢◌, ◌≤◌, [], List, ℕ, IsTrue, codes, length, IfOk, OnOk, IsErrOf, MatchResult, IfSome, IfNone, not, false, ◌↔◌, None, Some, option_map};
ghost use Rattle.rev_paths.specs.Quoting.{quote};
ghost use Rattle.rev_syntax.specs.Pieces.{seen_piece};
ghost use Rattle.rev_scopes.specs.Expansion.{limited, appended};
ghost use Rattle.rev_scopes.specs.declared.rule_variable.RuleVariable.{RuleVariable};
ghost use Rattle.rev_scopes.specs.RuleNames.{name_of, is_needed};
ghost use Rattle.rev_scopes.specs.Edges.{joined, paths_named, seen_edge, HasValue, AllHaveValues, SomeNeedsItself, SomeIsTooLarge, IsResponseFile, response_given, given_for, compared};
ghost use Rattle.rev_scopes.specs.Given.{AreGiven, IsGiven, IsOfSize};
ghost use Rattle.rev_scopes.specs.Slots.{seen_slots, AreOf, IsFound, IsAdded, IsTried, IsRight, IsWaiting, Waits, IsKnowable, AreStuck, IsSettledFor, NoneWaits, SomeWaits};
ghost use Rattle.rev_scopes.specs.declared.growth.TheConstants.{MAX_VALUE_BYTES};

use crate::edge::{EdgeEnv, EdgeVariables};
use crate::fault::ValueFault;
use crate::growth::Growth;
use crate::rule_variable::RuleVariable;
use crate::slots::{Slot, slot_named, slots_of};
use rev_paths::{Name, is_unquoted, quoted};
use rev_syntax::{Piece, Text};
use std::alloc::{AllocError, Global};

// Adds a quoted path.
fn push_path(alloc: Global, value: &mut Growth, path: &Name) -> Result<(), AllocError>
    ensures appended { OnOk result (value.new ≡ appended value.old (quote path.now)) }
    ensures within { OnOk result (appended value.new [] ≡ value.new) }
{
    if is_unquoted(path) {
        value.push(path.as_bytes())?;
        return Ok(());
    }
    let word = quoted(alloc, path)?;
    value.push(&word)?;
    Ok(())
}

// Quoted paths, each but the first behind a byte.
fn joined(alloc: Global, paths: &[Name], by: u8) -> Result<Growth, AllocError>
    ensures { IfOk result (λ value. value ≡ limited (joined by paths.now)) }
{
    let mut value = Growth::new(alloc);
    match paths.split_first() {
        None => Ok(value),
        Some((path, others)) => {
            push_path(alloc, &mut value, path)?;
            for other in others {
                value.push(&[by])?;
                push_path(alloc, &mut value, other)?;
            }
            Ok(value)
        }
    }
}

// The paths that a name stands for, and what stands between them.
fn paths_named<'e>(edge: &EdgeEnv<'e>, name: &[u8]) -> Option<(&'e [Name], u8)>
    ensures { option_map (λ found. joined found.1 found.0.now) result
        ≡ paths_named (seen_edge edge.now) name.now }
{
    if name == b"in".as_slice() {
        return Some((edge.ins, b' '));
    }
    if name == b"in_newline".as_slice() {
        return Some((edge.ins, b'\n'));
    }
    if name == b"out".as_slice() {
        return Some((edge.outs, b' '));
    }
    None
}

/// What a name leads to.
#[derive(Clone, Copy)]
pub(crate) enum Found<'e> {
    /// Paths, with a byte between each two.
    Paths(&'e [Name], u8),
    /// A value.
    Bytes(&'e [u8]),
    /// A text of the rule, whose value is known.
    Value(&'e Growth),
    /// A text of the rule, whose value is not known yet.
    Waiting,
}

// What a name leads to.
fn look_up<'e>(edge: &EdgeEnv<'e>, slots: &'e [Slot<'_>], name: &[u8]) -> Found<'e>
    requires slots { AreOf (seen_edge edge.now) (seen_slots slots.now) }
    ensures { IsFound (seen_edge edge.now) (seen_slots slots.now) name.now result }
{
    if let Some((paths, by)) = paths_named(edge, name) {
        return Found::Paths(paths, by);
    }
    if let Some(value) = edge.block.value(name) {
        return Found::Bytes(value);
    }
    match slot_named(slots, name) {
        Some(slot) => match &slot.value {
            Some(value) => Found::Value(value),
            None => Found::Waiting,
        },
        None => Found::Bytes(edge.scopes.variable(edge.scope, name)),
    }
}

// Adds what a piece stands for, and answers whether that is known.
fn push_piece(
    alloc: Global,
    value: &mut Growth,
    edge: &EdgeEnv<'_>,
    slots: &[Slot<'_>],
    piece: Piece<'_>,
) -> Result<bool, AllocError>
    requires slots { AreOf (seen_edge edge.now) (seen_slots slots.now) }
    ensures { IfOk result (λ added.
        IsAdded (seen_edge edge.now) (seen_slots slots.now) (seen_piece piece.entry) value.old
        added value.new) }
{
    let name = match piece {
        Piece::Literal(bytes) => {
            value.push(bytes)?;
            return Ok(true);
        }
        Piece::Variable(name) => name,
    };
    match look_up(edge, slots, name) {
        Found::Paths(paths, by) => {
            if value.is_over() {
                return Ok(true);
            }
            let text = joined(alloc, paths, by)?;
            value.push_value(&text)?;
            Ok(true)
        }
        Found::Bytes(bytes) => {
            value.push(bytes)?;
            Ok(true)
        }
        Found::Value(known) => {
            value.push_value(known)?;
            Ok(true)
        }
        Found::Waiting => Ok(false),
    }
}

// The value of a text, unless it names what is not known yet.
fn text_value(
    alloc: Global,
    edge: &EdgeEnv<'_>,
    slots: &[Slot<'_>],
    text: Text<'_>,
) -> Result<Option<Growth>, AllocError>
    requires slots { AreOf (seen_edge edge.now) (seen_slots slots.now) }
    ensures { IfOk result (λ tried. IsTried (seen_edge edge.now) (seen_slots slots.now) text.entry tried) }
{
    let mut value = Growth::new(alloc);
    let mut rest = text;
    while let Some((piece, after)) = rest.first_piece() {
        if !push_piece(alloc, &mut value, edge, slots, piece)? {
            return Ok(None);
        }
        rest = after;
    }
    Ok(Some(value))
}

// Whether the text of a variable is tried before others: it is one that each edge needs, or names its response file.
fn is_tried_first(variable: RuleVariable) -> bool
    ensures { IsTrue (is_needed variable) → IsTrue result }
{
    variable.is_needed() || matches!(variable, RuleVariable::Rspfile)
}

// The value of a text, if it can be found out by now. With `needed_only` no text is tried but those of variables that
// each edge needs, and that of its response file's path.
fn try_slot(
    alloc: Global,
    edge: &EdgeEnv<'_>,
    slots: &[Slot<'_>],
    slot: &Slot<'_>,
    needed_only: bool,
) -> Result<Option<Growth>, AllocError>
    requires slots { AreOf (seen_edge edge.now) (seen_slots slots.now) }
    ensures known { IfOk result (λ tried.
        IfSome tried (λ value. (slot.now.value ≡ None)
        × IsRight (seen_edge edge.now) slot.now.bound.now.text (Some value))) }
    ensures waits { IfOk result (λ tried.
        IfNone tried (needed_only ≡ false → slot.now.value ≡ None
        → Waits (IsWaiting (seen_edge edge.now) (seen_slots slots.now))
        slot.now.bound.now.text)) }
{
    if needed_only && !is_tried_first(slot.bound.variable) {
        return Ok(None);
    }
    match &slot.value {
        Some(_) => Ok(None),
        None => text_value(alloc, edge, slots, slot.bound.text.text()),
    }
}

// A value that can be found out by now, with its place, if there is one.
fn next_value(
    alloc: Global,
    edge: &EdgeEnv<'_>,
    slots: &[Slot<'_>],
    needed_only: bool,
) -> Result<Option<(usize, Growth)>, AllocError>
    requires slots { AreOf (seen_edge edge.now) (seen_slots slots.now) }
    ensures known { IfOk result (λ next.
        IfSome next (λ found. IsKnowable (seen_edge edge.now) slots.now found.0 found.1)) }
    ensures stuck { IfOk result (λ next.
        IfNone next (needed_only ≡ false
        → AreStuck (seen_edge edge.now) (seen_slots slots.now))) }
{
    for (place, slot) in slots.iter().enumerate() {
        if let Some(value) = try_slot(alloc, edge, slots, slot, needed_only)? {
            return Ok(Some((place, value)));
        }
    }
    Ok(None)
}

// The slots with the values of all texts that can be found out.
fn settled<'e>(
    alloc: Global,
    edge: &EdgeEnv<'_>,
    slots: Vec<Slot<'e>>,
    needed_only: bool,
) -> Result<Vec<Slot<'e>>, AllocError>
    requires slots { AreOf (seen_edge edge.now) (seen_slots slots.items) }
    ensures slots { IfOk result (λ settled. AreOf (seen_edge edge.now) (seen_slots settled.items)) }
    ensures stuck { IfOk result (λ settled. needed_only ≡ false
        → AreStuck (seen_edge edge.now) (seen_slots settled.items)) }
{
    let mut settled = slots;
    while let Some((place, value)) = next_value(alloc, edge, &settled, needed_only)? {
        settled[place].value = Some(value);
    }
    Ok(settled)
}

// Whether a variable waits for a value.
fn is_waiting(edge: &EdgeEnv<'_>, slots: &[Slot<'_>], variable: RuleVariable) -> bool
    requires slots { AreOf (seen_edge edge.now) (seen_slots slots.now) }
    ensures { IsTrue result ↔ IsWaiting (seen_edge edge.now) (seen_slots slots.now) (name_of variable) }
{
    matches!(look_up(edge, slots, variable.name()), Found::Waiting)
}

// Whether one of the variables that each edge needs waits for a value.
fn waits(edge: &EdgeEnv<'_>, slots: &[Slot<'_>]) -> bool
    requires slots { AreOf (seen_edge edge.now) (seen_slots slots.now) }
    ensures some { IsTrue result → SomeWaits (seen_edge edge.now) (seen_slots slots.now) }
    ensures none { IsTrue (not result) → NoneWaits (seen_edge edge.now) (seen_slots slots.now) }
{
    if is_waiting(edge, slots, RuleVariable::Command) {
        return true;
    }
    if is_waiting(edge, slots, RuleVariable::Depfile) {
        return true;
    }
    if is_waiting(edge, slots, RuleVariable::Deps) {
        return true;
    }
    if is_waiting(edge, slots, RuleVariable::Generator) {
        return true;
    }
    if is_waiting(edge, slots, RuleVariable::Restat) {
        return true;
    }
    if is_waiting(edge, slots, RuleVariable::RspfileContent) {
        return true;
    }
    is_waiting(edge, slots, RuleVariable::Pool)
}

// The texts of an edge's rule, with the values of all that the edge needs.
fn settled_slots<'e>(alloc: Global, edge: &EdgeEnv<'e>) -> Result<Vec<Slot<'e>>, ValueFault>
    ensures slots { IfOk result (λ slots. AreOf (seen_edge edge.now) (seen_slots slots.items)) }
    ensures known { IfOk result (λ slots. NoneWaits (seen_edge edge.now) (seen_slots slots.items)) }
    ensures needs_itself { IsErrOf result ValueFault.NeedsItself → SomeNeedsItself (seen_edge edge.now) }
    ensures size { result ≢ Err ValueFault.TooLarge }
{
    let slots = slots_of(alloc, edge.rule)?;
    let slots = settled(alloc, edge, slots, true)?;
    if !waits(edge, &slots) {
        return Ok(slots);
    }
    let slots = settled(alloc, edge, slots, false)?;
    if waits(edge, &slots) {
        return Err(ValueFault::NeedsItself);
    }
    Ok(slots)
}

// The value of a variable that does not wait.
fn known_value(
    alloc: Global,
    edge: &EdgeEnv<'_>,
    slots: &[Slot<'_>],
    variable: RuleVariable,
) -> Result<Vec<u8>, ValueFault>
    requires slots { AreOf (seen_edge edge.now) (seen_slots slots.now) }
    requires known { NoneWaits (seen_edge edge.now) (seen_slots slots.now) }
    requires needed { IsTrue (is_needed variable) }
    ensures { MatchResult result
        (λ value. IsGiven (seen_edge edge.now) (name_of variable) value.items)
        (IsOfSize (seen_edge edge.now)) }
{
    let mut value = Growth::new(alloc);
    let _is_known = push_piece(
        alloc,
        &mut value,
        edge,
        slots,
        Piece::Variable(variable.name()),
    )?;
    match value.into_value() {
        Some(bytes) => Ok(bytes),
        None => Err(ValueFault::TooLarge),
    }
}

// The values of all variables that do not wait, without a response file.
fn known_values(
    alloc: Global,
    edge: &EdgeEnv<'_>,
    slots: &[Slot<'_>],
) -> Result<EdgeVariables, ValueFault>
    requires slots { AreOf (seen_edge edge.now) (seen_slots slots.now) }
    requires known { NoneWaits (seen_edge edge.now) (seen_slots slots.now) }
    ensures { MatchResult result (AreGiven (seen_edge edge.now)) (IsOfSize (seen_edge edge.now)) }
{
    let command = known_value(alloc, edge, slots, RuleVariable::Command)?;
    let depfile = known_value(alloc, edge, slots, RuleVariable::Depfile)?;
    let deps = known_value(alloc, edge, slots, RuleVariable::Deps)?;
    let generator = known_value(alloc, edge, slots, RuleVariable::Generator)?;
    let restat = known_value(alloc, edge, slots, RuleVariable::Restat)?;
    let rspfile_content = known_value(alloc, edge, slots, RuleVariable::RspfileContent)?;
    let pool = known_value(alloc, edge, slots, RuleVariable::Pool)?;
    Ok(EdgeVariables {
        command,
        depfile,
        deps,
        generator,
        restat,
        rspfile: None,
        rspfile_content,
        pool,
    })
}

// The path of an edge's response file, once no more can be found out of it; none where it is too large.
fn settled_response(
    alloc: Global,
    edge: &EdgeEnv<'_>,
    slots: &[Slot<'_>],
) -> Result<Option<Vec<u8>>, AllocError>
    requires slots { AreOf (seen_edge edge.now) (seen_slots slots.now) }
    requires settled { IsSettledFor (codes "rspfile") (seen_edge edge.now) (seen_slots slots.now) }
    ensures path { IfOk result (λ path. IsResponseFile (seen_edge edge.now) (option_map (λ p. p.items) path)) }
    ensures within { IfOk result (λ path. IfSome path (λ p. length p.items ≤ MAX_VALUE_BYTES)) }
{
    let mut value = Growth::new(alloc);
    let is_known = push_piece(
        alloc,
        &mut value,
        edge,
        slots,
        Piece::Variable(RuleVariable::Rspfile.name()),
    )?;
    if !is_known {
        return Ok(Some(Vec::new(alloc)));
    }
    Ok(value.into_value())
}

// The path of an edge's response file. Texts that the edge does not need are expanded only where it leads to them.
fn response_file(
    alloc: Global,
    edge: &EdgeEnv<'_>,
    slots: Vec<Slot<'_>>,
) -> Result<Option<Vec<u8>>, AllocError>
    requires slots { AreOf (seen_edge edge.now) (seen_slots slots.items) }
    ensures path { IfOk result (λ path. IsResponseFile (seen_edge edge.now) (option_map (λ p. p.items) path)) }
    ensures within { IfOk result (λ path. IfSome path (λ p. length p.items ≤ MAX_VALUE_BYTES)) }
{
    if !is_waiting(edge, &slots, RuleVariable::Rspfile) {
        return settled_response(alloc, edge, &slots);
    }
    let slots = settled(alloc, edge, slots, false)?;
    settled_response(alloc, edge, &slots)
}

/// The values of the variables that are expanded for an edge that is not phony. A name is looked up as `in`,
/// `in_newline` and `out`, in the block, in the rule, whose texts are expanded by this same look-up, and then in the
/// scopes. Each text of the rule is expanded at most once, and those that the edge does not need only where one that
/// it needs, or `rspfile`, leads to them. No edge is refused for `rspfile`: where its value is too large the edge has
/// no path of a response file, and where it has no value that path is empty.
///
/// # Errors
/// [`ValueFault::NeedsItself`] where one of the variables has no value, since it needs itself. Where all have one,
/// [`ValueFault::TooLarge`] where one has more than [`MAX_VALUE_BYTES`](crate::MAX_VALUE_BYTES) bytes.
/// [`ValueFault::Memory`] only where an allocation was refused.
pub fn edge_variables(alloc: Global, edge: &EdgeEnv<'_>) -> Result<EdgeVariables, ValueFault>
    // What is given for each variable is its value, and no larger than a value may be.
    ensures values { IfOk result (λ values. (variable : RuleVariable) → IsTrue (is_needed variable)
        → HasValue (seen_edge edge.now) (name_of variable) (given_for variable values)) }
    ensures within { IfOk result (λ values. (variable : RuleVariable)
        → length (given_for variable values) ≤ MAX_VALUE_BYTES) }
    ensures response { IfOk result (λ values. IsResponseFile (seen_edge edge.now) (response_given values)) }
    // That a variable has no value comes before that one is too large.
    ensures needs_itself { IsErrOf result ValueFault.NeedsItself → SomeNeedsItself (seen_edge edge.now) }
    ensures all { IsErrOf result ValueFault.TooLarge → AllHaveValues (seen_edge edge.now) }
    ensures too_large { IsErrOf result ValueFault.TooLarge → SomeIsTooLarge (seen_edge edge.now) }
{
    let slots = settled_slots(alloc, edge)?;
    let mut values = known_values(alloc, edge, &slots)?;
    values.rspfile = response_file(alloc, edge, slots)?;
    Ok(values)
}

/// The command that is compared with the recorded one: the command and, where the content of its response file is not
/// empty, that content behind `;rspfile=`.
///
/// # Errors
/// [`AllocError`] where an allocation was refused.
pub fn compared_command(command: Vec<u8>, rspfile_content: &[u8]) -> Result<Vec<u8>, AllocError>
    ensures { IfOk result (λ text. text.items ≡ compared command.items rspfile_content.now) }
{
    let mut text = command;
    if rspfile_content.is_empty() {
        return Ok(text);
    }
    text.extend_from_slice(b";rspfile=")?;
    text.extend_from_slice(rspfile_content)?;
    Ok(text)
}
