//! A desk before a build of two compiles and a link, and what is said to it.

use rev_desk::{Command, Desk};
use rev_graph::Graph;
use rev_manifest::{Manifest, read};
use std::alloc::{AllocError, Global};

const MANIFEST: &[u8] =
    b"rule cc\n  command = cc -c $in -o $out\nrule ld\n  command = ld $in -o $out\n\
build a.o: cc a.c\nbuild b.o: cc b.c\nbuild app: ld a.o b.o\n";

// The files before the build, and a build that is undone in part.
const TRACE: &[u8] = b"rebug-trace 2\njobs 2\nstamp a.c 10\nstamp b.c 20\nlane 0\n\
plan app\nstart a.o 0\nstart b.o 1\nfinish a.o 100\nfinish b.o 110\n\
undo 4\nredo 4\ncone 3\nresize 0 2\nundo 9\n";

fn manifest(alloc: Global) -> Result<Option<Manifest>, AllocError> {
    let mut files = Vec::with_capacity(alloc, 1)?;
    let name = Vec::from_slice(alloc, b"build.ninja")?;
    files.push_reserved((name, Vec::from_slice(alloc, MANIFEST)?));
    Ok(read(alloc, &files).ok())
}

fn graph(alloc: Global) -> Option<Graph> {
    match &manifest(alloc) {
        Ok(Some(manifest)) => Graph::build(alloc, manifest).ok(),
        _ => None,
    }
}

/// The desk, of one lane, and what that lane says.
pub(crate) fn desk(alloc: Global) -> Option<(Desk, Vec<Command>)> {
    let trace = rev_trace::read(alloc, TRACE).ok()?;
    let desk = Desk::new(alloc, graph(alloc)?, &trace.opening, 1).ok()?;
    let commands = trace.into_lanes().pop()?;
    Some((desk, commands))
}
