//! The lines of the answers to commands.
ghost use Rattle.std.specs.Prelude.{◌≡◌, ◌++◌, IfOk, OnOk, None, Some};
ghost use Rattle.rev_report.specs.Answers.{answer_line, number_text, reply_text};

use rev_desk::Reply;
use rev_events::Refusal;
use rev_fields::push_number;
use std::alloc::{AllocError, Global};

// Adds a number of a refusal behind a space, if there is one.
fn push_number_of_refusal(line: &mut Vec<u8>, number: Option<u64>) -> Result<(), AllocError>
    ensures { OnOk result (line.new.items ≡ line.old.items ++ number_text number) }
{
    let Some(number) = number else {
        return Ok(());
    };
    line.extend_from_slice(b" ")?;
    push_number(line, number)
}

// Adds a refusal with its numbers.
fn push_refusal(line: &mut Vec<u8>, refusal: Refusal) -> Result<(), AllocError>
    ensures { OnOk result (line.new.items ≡ line.old.items ++ reply_text (Reply.Refused refusal)) }
{
    let [first, second] = refusal.numbers();
    line.extend_from_slice(b"refused ")?;
    push_number(line, u64::from(refusal.code()))?;
    push_number_of_refusal(line, first)?;
    push_number_of_refusal(line, second)
}

// Adds a reply.
fn push_reply(line: &mut Vec<u8>, reply: Reply) -> Result<(), AllocError>
    ensures { OnOk result (line.new.items ≡ line.old.items ++ reply_text reply) }
{
    match reply {
        Reply::Accepted(_, None) => line.extend_from_slice(b"ok"),
        Reply::Accepted(_, Some(number)) => {
            line.extend_from_slice(b"ok break ")?;
            push_number(line, u64::from(number))
        }
        Reply::Coned(_, count) => {
            line.extend_from_slice(b"cone ")?;
            push_number(line, count)
        }
        Reply::Refused(refusal) => push_refusal(line, refusal),
    }
}

// The line of a command that made an entry.
fn reply_line(alloc: Global, number: u64, lane: u32, reply: Reply) -> Result<Vec<u8>, AllocError>
    ensures { IfOk result (λ line. line.items ≡ answer_line number lane (Some reply)) }
{
    let mut line = Vec::new(alloc);
    push_number(&mut line, number)?;
    line.extend_from_slice(b" ")?;
    push_number(&mut line, u64::from(lane))?;
    line.extend_from_slice(b" ")?;
    push_reply(&mut line, reply)?;
    line.extend_from_slice(b"\n")?;
    Ok(line)
}

// The line of a command for whose entry there is no room.
fn full_line(alloc: Global, lane: u32) -> Result<Vec<u8>, AllocError>
    ensures { IfOk result (λ line. line.items ≡ answer_line 0 lane None) }
{
    let mut line = Vec::from_slice(alloc, b"- ")?;
    push_number(&mut line, u64::from(lane))?;
    line.extend_from_slice(b" refused 94\n")?;
    Ok(line)
}

/// The line of the answer to a command of a lane. `number` is the entry's number in the journal, where there is an
/// entry.
pub fn answer_line(
    alloc: Global,
    number: u64,
    lane: u32,
    answer: Option<Reply>,
) -> Result<Vec<u8>, AllocError>
    ensures { IfOk result (λ line. line.items ≡ answer_line number lane answer) }
{
    match answer {
        None => full_line(alloc, lane),
        Some(reply) => reply_line(alloc, number, lane, reply),
    }
}
