//! A chain of edges that two lanes make in turn. Neither may be refused, since each keeps the chain's order.
use crate::builds::{closed, code_of};
use crate::gates::{BEHIND_1, Gates, NONE};
use std::alloc::{AllocError, Global};
use std::sync::Wait;
use std::thread::Threads;

// A chain of edges, and a trace of two lanes that builds it: lane 0 plans it and makes the even ones, lane 1 the odd
// ones.
fn chain_of(alloc: Global, edges: u32) -> Result<(String, String), AllocError> {
    let mut manifest = String::new(alloc);
    manifest.push_str("rule r\n  command = r $in $out\nbuild o0: r s\n")?;
    let mut even = String::new(alloc);
    even.push_str(
        "rebug-trace 1\njobs 2\nstamp s 1\nlane 0\nplan o39\nstart o0 0\nfinish o0 10\n",
    )?;
    let mut odd = String::new(alloc);
    odd.push_str("lane 1\n")?;
    let mut last = 0u32;
    for edge in 1..edges {
        manifest.push_str(&format!(in alloc; "build o{edge}: r o{last}\n")?)?;
        let job = edge % 2;
        let said = format!(in alloc; "start o{edge} {job}\nfinish o{edge} 1{edge}\n")?;
        if job == 0 {
            even.push_str(&said)?;
        } else {
            odd.push_str(&said)?;
        }
        last = edge;
    }
    even.push_str(&odd)?;
    Ok((manifest, even))
}

// How many commands are refused where two lanes build a chain, and how many entries there are.
fn refused_in_chain<R: Threads + Wait + Sync>(
    rt: &R,
    alloc: Global,
    edges: u32,
) -> Result<(usize, usize), AllocError> {
    let (content, text) = chain_of(alloc, edges)?;
    // Lane 1 is let in once the build is planned.
    let gate = Gates::new(BEHIND_1, NONE, 0);
    let desk = closed(rt, alloc, &content, &text, &gate)?;
    let journal = desk.journal();
    let refused = journal
        .iter()
        .filter(|entry| code_of(entry.reply) != 0)
        .count();
    Ok((refused, journal.len()))
}

#[test]
fn a_woken_lane_counts_as_going(rt: HostRuntime) -> Result<(), AllocError> {
    let alloc = rt.alloc();
    for _ in 0..10 {
        let told = refused_in_chain(&rt, alloc, 40)?;
        assert!(rt; told == (0, 81), "{told:?}");
    }
    Ok(())
}
