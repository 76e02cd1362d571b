//! Prints the schedule of a build that a file describes.
//!
//! The word is the file. Its first line has the jobs, its second one the depths of the pools. Then comes a line for
//! each edge: duration, pool, rank, place in the plan, 1 where it is phony and else 0, and its makers.
#![tactic(auto)]

use rev_schedule::{Build, Job, Run, Schedule, schedule_of};
use std::fs;
use std::process::ExitCode;
use std::rt::{Env, Files};

// Why no schedule is printed.
#[derive(Clone, Copy)]
enum Fault {
    // The words, a file, or the standard output.
    Io,
    // Memory was refused.
    Memory,
    // The file describes no build.
    Form,
}

impl From<std::io::Error> for Fault {
    fn from(_error: std::io::Error) -> Fault {
        Fault::Io
    }
}

impl From<std::alloc::AllocError> for Fault {
    fn from(_e: std::alloc::AllocError) -> Fault {
        Fault::Memory
    }
}

impl<T: Drop> From<std::alloc::AllocFailed<T>> for Fault {
    fn from(_e: std::alloc::AllocFailed<T>) -> Fault {
        Fault::Memory
    }
}

// The numbers of a line.
fn numbers<R: AllocGlobal>(rt: &R, line: &str) -> Result<Vec<u32>, Fault> {
    let mut numbers = Vec::new(rt.alloc());
    for word in line.split_whitespace() {
        match word.parse::<u32>() {
            Ok(number) => numbers.push(number)?,
            Err(_) => return Err(Fault::Form),
        }
    }
    Ok(numbers)
}

fn push_edge<R: AllocGlobal>(rt: &R, build: &mut Build, numbers: &[u32]) -> Result<(), Fault> {
    match numbers {
        [duration, pool, rank, planned, phony, makers @ ..] => {
            build.jobs.push(Job {
                duration: *duration,
                pool: *pool,
                rank: *rank as u64,
                planned: *planned as u64,
                phony: *phony == 1,
            })?;
            build.makers.push(Vec::from_slice(rt.alloc(), makers)?)?;
            Ok(())
        }
        _ => Err(Fault::Form),
    }
}

// The build that a text describes, and its jobs.
fn build_of<R: AllocGlobal>(rt: &R, text: &str) -> Result<(Build, u32), Fault> {
    let mut build = Build {
        jobs: Vec::new(rt.alloc()),
        makers: Vec::new(rt.alloc()),
        depths: Vec::new(rt.alloc()),
    };
    let mut jobs = 0;
    for (place, line) in text.lines().enumerate() {
        let numbers = numbers(rt, line)?;
        if place == 0 {
            jobs = numbers.first().copied().unwrap_or(0);
        } else if place == 1 {
            build.depths = numbers;
        } else {
            push_edge(rt, &mut build, &numbers)?;
        }
    }
    Ok((build, jobs))
}

fn print_run<R: Print>(rt: &R, run: &Run) -> Result<(), Fault> {
    match run.cause {
        Some(cause) => println!(rt; "{} {} {} {}", run.edge, run.start, run.end, cause)?,
        None => println!(rt; "{} {} {} -", run.edge, run.start, run.end)?,
    }
    Ok(())
}

fn print_all<R: Print>(rt: &R, schedule: &Schedule) -> Result<(), Fault> {
    for run in &schedule.runs {
        print_run(rt, run)?;
    }
    println!(rt; "end {}", schedule.end)?;
    Ok(())
}

fn work<R: Files + Env + Print + AllocGlobal>(rt: &R) -> Result<(), Fault> {
    let words: Vec<String> = std::env::args(rt)?.collect(rt.alloc())?;
    let Some(name) = words.get(1) else {
        return Err(Fault::Io);
    };
    let text = fs::read_to_string(rt, name.as_str())?;
    let (build, jobs) = build_of(rt, text.as_str())?;
    if jobs == 0 || !build.is_whole() {
        return Err(Fault::Form);
    }
    match schedule_of(rt.alloc(), &build, jobs)? {
        Some(schedule) => print_all(rt, &schedule),
        None => Err(Fault::Form),
    }
}

fn main(rt: HostRuntime) -> ExitCode {
    match work(&rt) {
        Ok(()) => ExitCode::SUCCESS,
        Err(_) => ExitCode::FAILURE,
    }
}
