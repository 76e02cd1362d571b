//! Prints orders of a graph that a file describes, and how many pairs of commands are left after each.
//!
//! The word is the file. Its first line has the most orders that are wanted. Then comes a line for each node: 1 where it
//! is a command and else 0, and the nodes that it waits for. The nodes are numbered as their lines stand, from 0, and
//! the first order is the one nearest to these numbers.
#![tactic(auto)]

ghost use Rattle.std.specs.Bool.{OnTrue};
ghost use Rattle.std.specs.Prelude.{◌≡◌, ◌<◌, ◌^◌, length};
ghost use Rattle.std.specs.List.{All};

use rev_orders::{Order, choose, nearest};
use std::alloc::AllocError;
use std::fs;
use std::process::ExitCode;
use std::rt::{Env, Files};

// Why no orders are printed.
#[derive(Clone, Copy)]
enum Fault {
    // The words, a file, or the standard output.
    Io,
    // Memory was refused.
    Memory,
    // The file describes no graph, or nodes that wait for each other.
    Form,
}

impl From<std::io::Error> for Fault {
    fn from(_error: std::io::Error) -> Fault {
        Fault::Io
    }
}

impl From<AllocError> for Fault {
    fn from(_e: AllocError) -> Fault {
        Fault::Memory
    }
}

impl<T: Drop> From<std::alloc::AllocFailed<T>> for Fault {
    fn from(_e: std::alloc::AllocFailed<T>) -> Fault {
        Fault::Memory
    }
}

// What a file describes.
#[derive(Drop)]
struct Described {
    most: usize,
    commands: Vec<bool>,
    steps: Vec<Vec<u32>>,
}

// The numbers of a line.
fn numbers<R: AllocGlobal>(rt: &R, line: &str) -> Result<Vec<u32>, Fault> {
    let mut numbers = Vec::new(rt.alloc());
    for word in line.split_whitespace() {
        match word.parse::<u32>() {
            Ok(number) => numbers.push(number)?,
            Err(_) => return Err(Fault::Form),
        }
    }
    Ok(numbers)
}

fn push_node<R: AllocGlobal>(
    rt: &R,
    described: &mut Described,
    numbers: &[u32],
) -> Result<(), Fault> {
    match numbers {
        [command, waits @ ..] => {
            described.commands.push(*command == 1)?;
            described.steps.push(Vec::from_slice(rt.alloc(), waits)?)?;
            Ok(())
        }
        _ => Err(Fault::Form),
    }
}

// The graph that a text describes, and how many orders are wanted.
fn described_by<R: AllocGlobal>(rt: &R, text: &str) -> Result<Described, Fault> {
    let mut described = Described {
        most: 0,
        commands: Vec::new(rt.alloc()),
        steps: Vec::new(rt.alloc()),
    };
    for (place, line) in text.lines().enumerate() {
        let numbers = numbers(rt, line)?;
        if place > 0 {
            push_node(rt, &mut described, &numbers)?;
        } else if let [most] = &numbers[..] {
            described.most = *most as usize;
        } else {
            return Err(Fault::Form);
        }
    }
    Ok(described)
}

// Whether each of these is a node.
fn are_nodes(nodes: &[u32], count: usize) -> bool
    ensures { OnTrue result (All (λ s. s < count) nodes.now) }
{
    for node in nodes {
        if *node as usize >= count {
            return false;
        }
    }
    true
}

// Whether each node waits for nodes alone.
fn are_inside(steps: &[Vec<u32>]) -> bool
    ensures { OnTrue result (All (λ v. All (λ s. s < length steps.now) v.items) steps.now) }
{
    for node in 0..steps.len() {
        if !are_nodes(&steps[node], steps.len()) {
            return false;
        }
    }
    true
}

// Prints an order, and how many pairs are left after it.
fn print_order<R: Print>(rt: &R, order: &Order, left: usize) -> Result<(), Fault> {
    print!(rt; "{left}:")?;
    for node in order.nodes() {
        print!(rt; " {node}")?;
    }
    println!(rt;)?;
    Ok(())
}

// Chooses orders, and prints them.
fn print_orders<R: Print + AllocGlobal>(
    rt: &R,
    most: usize,
    commands: &[bool],
    steps: &[Vec<u32>],
) -> Result<(), Fault>
    requires inside { All (λ v. All (λ s. s < length steps.now) v.items) steps.now }
    requires small { length steps.now < 2 ^ 32 }
    requires commands { length commands.now ≡ length steps.now }
{
    let mut wished = Vec::with_capacity(rt.alloc(), steps.len())?;
    for node in 0..steps.len() {
        wished.push(node)?;
    }
    let Some(first) = nearest(rt.alloc(), steps, commands, &wished)? else {
        return Err(Fault::Form);
    };
    let chosen = choose(rt.alloc(), steps, commands, &first, most)?;
    print_order(rt, &first, chosen.counts.unordered)?;
    for (order, left) in chosen.others.iter().zip(chosen.counts.left.iter()) {
        print_order(rt, order, *left)?;
    }
    Ok(())
}

fn work<R: Files + Env + Print + AllocGlobal>(rt: &R) -> Result<(), Fault> {
    let words: Vec<String> = std::env::args(rt)?.collect(rt.alloc())?;
    let Some(name) = words.get(1) else {
        return Err(Fault::Io);
    };
    let text = fs::read_to_string(rt, name.as_str())?;
    let Described {
        most,
        commands,
        steps,
    } = described_by(rt, text.as_str())?;
    if steps.len() > 0xffff_ffff || commands.len() != steps.len() || !are_inside(&steps) {
        return Err(Fault::Form);
    }
    print_orders(rt, most, &commands, &steps)
}

fn main(rt: HostRuntime) -> ExitCode {
    match work(&rt) {
        Ok(()) => ExitCode::SUCCESS,
        Err(_) => ExitCode::FAILURE,
    }
}
