//! Makes the calls of a desk while memory is refused once, and again the call that was refused memory.
//! `tests/growth/run` refuses the first allocation after the line `made`, then the second, and so on, until a run meets
//! no refusal.
#![tactic(auto)]

mod desk;

use rev_desk::{Command, Desk, Reply};
use std::process::ExitCode;

// Says a command, and again what comes back: whether it was accepted.
fn say(desk: &mut Desk, command: Command) -> bool {
    if desk.lanes() == 0 {
        return false;
    }
    let reply = match desk.apply(0, command) {
        Ok(reply) => reply,
        Err(unsaid) => match desk.apply(0, unsaid.into_command()) {
            Ok(reply) => reply,
            Err(_) => return false,
        },
    };
    !matches!(reply, Reply::Refused(_))
}

// Says all commands: how many were accepted.
fn say_all(desk: &mut Desk, commands: Vec<Command>) -> u32 {
    let mut accepted = 0u32;
    for command in commands {
        if say(desk, command) {
            accepted = accepted.saturating_add(1);
        }
    }
    accepted
}

// Prints how many commands were accepted, and which events are kept.
fn print_end<R: Print>(rt: &R, accepted: u32, desk: &Desk) -> ExitCode {
    match println!(rt; "accepted {accepted}, kept {:?}", desk.history().kept()) {
        Ok(()) => ExitCode::SUCCESS,
        Err(_) => ExitCode::FAILURE,
    }
}

fn main(rt: HostRuntime) -> ExitCode {
    let Some((mut desk, commands)) = desk::desk(rt.alloc()) else {
        return ExitCode::FAILURE;
    };
    match println!(rt; "made") {
        Ok(()) => {
            let accepted = say_all(&mut desk, commands);
            print_end(&rt, accepted, &desk)
        }
        Err(_) => ExitCode::FAILURE,
    }
}
