//! The answers to commands.
ghost use Rattle.std.specs.Prelude.{◌≡◌, ◌<◌, IfOk, OnOk};
ghost use Rattle.rev_report.specs.Answers.{after_answer, answer_to, names_break};
ghost use Rattle.rev_desk.specs.Machine.{next_number};

use rev_desk::{Command, Desk, Reply, Unsaid, Why};
use rev_script::RunFault;

/// The number of a desk's next entry.
pub(crate) fn next_number(desk: &Desk) -> u64
    ensures { result ≡ next_number desk.now }
{
    desk.journal().len() as u64 + 1
}

// What kept a command from an entry.
fn why_of(unsaid: Unsaid) -> Why
    ensures { result ≡ unsaid.why }
{
    unsaid.why
}

/// Sends a lane's command to the desk; `None` if the journal is full. `Memory` is answered only where the system
/// refused memory.
pub(crate) fn answer(
    desk: &mut Desk,
    lane: u32,
    command: Command,
) -> Result<Option<Reply>, RunFault>
    requires { lane < desk.old.lanes }
    ensures answer { IfOk result (λ answer. answer ≡ answer_to desk.old command) }
    ensures after { OnOk result (desk.new ≡ after_answer desk.old lane command) }
    ensures lanes { OnOk result (desk.new.lanes ≡ desk.old.lanes) }
{
    match desk.apply(lane, command) {
        Ok(reply) => Ok(Some(reply)),
        Err(unsaid) => match why_of(unsaid) {
            Why::JournalFull => Ok(None),
            Why::Memory => Err(RunFault::Memory),
        },
    }
}

/// Whether an answer names a break.
pub(crate) fn names_break(answer: Option<Reply>) -> bool
    ensures { result ≡ names_break answer }
{
    matches!(answer, Some(Reply::Accepted(_, Some(_))))
}
