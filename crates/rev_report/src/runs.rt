//! The word `run`.
ghost use Rattle.std.specs.Prelude.{◌≡◌, ℕ, ◌+◌, ◌<◌, ◌≤◌, List, IfOk, OnOk, length, take, drop};
ghost use Rattle.rev_report.specs.Answers.{after_answer, answer_to, names_break, said_line};
ghost use Rattle.rev_script.specs.Output.{Writes};
ghost use Rattle.rev_report.specs.Runs.{after_turns, answers_text, offered, taken, until_break};
ghost use Rattle.rev_script.specs.SeenTurns.{seen_turns};
ghost use Rattle.rev_script.specs.Turns.{AreOf};
ghost use Rattle.rev_commands.specs.declared.command.Command.{Command};

use crate::answers::{answer, names_break, next_number};
use crate::text::answer_line;
use rev_desk::{Command, Desk};
use rev_script::{RunFault, Turn, send};
use std::alloc::Global;
use std::io::Write;

/// Sends a command of a lane to the desk and writes the line of its answer. Returns whether the answer names a break.
#[tactic(auto, unfolding(crate::specs::Answers::said_line))]
pub(crate) fn run_command<W: Write>(
    alloc: Global,
    desk: &mut Desk,
    lane: u32,
    command: Command,
    writer: &mut W,
) -> Result<bool, RunFault>
    requires { lane < desk.old.lanes }
    ensures text { Writes result (W.contents writer.old) (W.contents writer.new)
        (said_line desk.old lane command) }
    ensures after { OnOk result (desk.new ≡ after_answer desk.old lane command) }
    ensures lanes { OnOk result (desk.new.lanes ≡ desk.old.lanes) }
    ensures ends { IfOk result (λ ends. ends ≡ names_break (answer_to desk.old command)) }
{
    let number = next_number(desk);
    let answer = answer(desk, lane, command)?;
    let line = answer_line(alloc, number, lane, answer)?;
    send(writer, &line)?;
    Ok(names_break(answer))
}

// Says commands of the lanes in turn, up to the first whose answer names a break, writes the line of each, and counts
// them.
fn run_turns<W: Write>(
    alloc: Global,
    desk: &mut Desk,
    turns: &[Turn<'_>],
    writer: &mut W,
) -> Result<usize, RunFault>
    requires { AreOf desk.old.lanes (seen_turns turns.now) }
    ensures text { Writes result (W.contents writer.old) (W.contents writer.new)
        (answers_text desk.old (until_break desk.old (seen_turns turns.now))) }
    ensures after { OnOk result (desk.new ≡ after_turns desk.old (until_break desk.old (seen_turns turns.now))) }
    ensures lanes { OnOk result (desk.new.lanes ≡ desk.old.lanes) }
    ensures count { IfOk result (λ count. count ≡ length (until_break desk.old (seen_turns turns.now))) }
{
    let mut count = 0;
    for turn in turns {
        count += 1;
        let command = turn.command.copy()?;
        if run_command(alloc, desk, turn.lane, command, writer)? {
            return Ok(count);
        }
    }
    Ok(count)
}

// How many turns `run` may take where so many are left.
fn most_of(left: usize, most: Option<u32>) -> usize
    ensures within { result ≤ left }
    ensures front { (turns : List (ℕ × Command)) → length turns ≡ left → take result turns ≡ offered most turns }
{
    match most {
        None => left,
        Some(most) => left.min(most as usize),
    }
}

/// Takes turns as the word `run` does, after `taken` turns were taken before. Writes the line of each answer, and
/// returns the number of turns taken in all.
pub(crate) fn run_taken<W: Write>(
    alloc: Global,
    desk: &mut Desk,
    turns: &[Turn<'_>],
    before: usize,
    most: Option<u32>,
    writer: &mut W,
) -> Result<usize, RunFault>
    requires lanes { AreOf desk.old.lanes (seen_turns turns.now) }
    requires within { before ≤ length turns.now }
    ensures text { Writes result (W.contents writer.old) (W.contents writer.new)
        (answers_text desk.old (taken most desk.old (drop before (seen_turns turns.now)))) }
    ensures after { OnOk result (desk.new
        ≡ after_turns desk.old (taken most desk.old (drop before (seen_turns turns.now)))) }
    ensures lanes { OnOk result (desk.new.lanes ≡ desk.old.lanes) }
    ensures within { IfOk result (λ count. count ≤ length turns.now) }
    ensures count { IfOk result (λ count. count
        ≡ before + length (taken most desk.old (drop before (seen_turns turns.now)))) }
{
    let end = before + most_of(turns.len() - before, most);
    let count = run_turns(alloc, desk, &turns[before..end], writer)?;
    Ok(before + count)
}
