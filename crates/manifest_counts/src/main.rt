//! Counts the edges and the outputs of manifests, to be put beside what `ninja -t targets all` lists.
//!
//! The words are files; `--` stands between one manifest's and the next's. The first file of each is the manifest itself.
//! Where the first word is `--graph`, the graph of each manifest is built as well; where it is `--threads`, the manifest
//! is read on as many threads as there are processors.
#![tactic(auto)]

use rev_graph::Graph;
use rev_manifest::{Manifest, read, read_by_threads};
use std::fs;
use std::io::Read;
use std::process::ExitCode;
use std::rt::{Env, Files};
use std::thread::Threads;

// Why no count is printed.
#[derive(Clone, Copy)]
enum CountFault {
    // The words, a file, or the standard output.
    Io,
    // The manifest.
    Manifest,
    // Its graph.
    Graph,
}

impl From<std::io::Error> for CountFault {
    fn from(_error: std::io::Error) -> CountFault {
        CountFault::Io
    }
}

impl From<std::alloc::AllocError> for CountFault {
    fn from(_e: std::alloc::AllocError) -> CountFault {
        CountFault::Manifest
    }
}

impl<T: Drop> From<std::alloc::AllocFailed<T>> for CountFault {
    fn from(_e: std::alloc::AllocFailed<T>) -> CountFault {
        CountFault::Manifest
    }
}

// How manifests are read.
#[derive(Clone, Copy)]
enum How {
    // Reading alone.
    Alone,
    // The graph as well.
    WithGraph,
    // Reading alone, on several threads.
    ByThreads,
}

// How many outputs the edges have.
fn outputs(manifest: &Manifest) -> usize {
    let mut count = 0usize;
    for build in manifest.builds() {
        count = count
            .saturating_add(build.explicit_outs().len())
            .saturating_add(build.implicit_outs().len());
    }
    count
}

// Files with their names.
type NamedFiles = Vec<(Vec<u8>, Vec<u8>)>;

fn content_of<R: Files + AllocGlobal>(rt: &R, name: &str) -> Result<Vec<u8>, CountFault> {
    let mut content = Vec::new(rt.alloc());
    fs::open(rt, name)?.read_to_end(&mut content)?;
    content.shrink_to_fit();
    Ok(content)
}

fn push_file<R: Files + AllocGlobal>(
    rt: &R,
    files: &mut NamedFiles,
    name: &str,
) -> Result<(), CountFault> {
    let content = content_of(rt, name)?;
    files.push((Vec::from_slice(rt.alloc(), name.as_bytes())?, content))?;
    Ok(())
}

fn files_of<R: Files + AllocGlobal>(rt: &R, names: &[String]) -> Result<NamedFiles, CountFault> {
    let mut files = Vec::new(rt.alloc());
    for name in names {
        push_file(rt, &mut files, name)?;
    }
    Ok(files)
}

fn manifest_of<R: Files + Threads + AllocGlobal + Sync>(
    rt: &R,
    names: &[String],
    how: How,
) -> Result<Manifest, CountFault> {
    let files = files_of(rt, names)?;
    let manifest = match how {
        How::ByThreads => read_by_threads(rt, rt.alloc(), &files),
        How::Alone | How::WithGraph => read(rt.alloc(), &files),
    };
    match manifest {
        Ok(manifest) => Ok(manifest),
        Err(_) => Err(CountFault::Manifest),
    }
}

fn print_graph<R: Print + AllocGlobal>(rt: &R, manifest: &Manifest) -> Result<(), CountFault> {
    let Ok(graph) = Graph::build(rt.alloc(), manifest) else {
        return Err(CountFault::Graph);
    };
    println!(rt; "graph of {} edges", graph.edges())?;
    Ok(())
}

fn print_counts<R: Print>(rt: &R, manifest: &Manifest) -> Result<(), CountFault> {
    println!(rt;
        "edges {} outputs {} pools {} defaults {}",
        manifest.builds().len(),
        outputs(manifest),
        manifest.pools().len(),
        manifest.defaults().len()
    )?;
    Ok(())
}

// Prints the counts of the manifest that these files are.
fn count<R: Files + Print + Threads + AllocGlobal + Sync>(
    rt: &R,
    names: &[String],
    how: How,
) -> Result<(), CountFault> {
    let manifest = manifest_of(rt, names, how)?;
    if matches!(how, How::WithGraph) {
        print_graph(rt, &manifest)?;
    }
    print_counts(rt, &manifest)
}

// The files that words name, and how these are read.
fn asked(words: &[String]) -> (&[String], How) {
    match words.split_first() {
        Some((first, files)) if first.as_str() == "--graph" => (files, How::WithGraph),
        Some((first, files)) if first.as_str() == "--threads" => (files, How::ByThreads),
        _ => (words, How::Alone),
    }
}

// Counts the manifests that words name, one after another.
fn count_each<R: Files + Print + Threads + AllocGlobal + Sync>(
    rt: &R,
    words: &[String],
) -> Result<(), CountFault> {
    let (files, how) = asked(words);
    for names in files.split(|word| word.as_str() == "--") {
        count(rt, names, how)?;
    }
    Ok(())
}

// Counts those that the program's words name.
fn count_all<R: Files + Env + Print + Threads + AllocGlobal + Sync>(
    rt: &R,
) -> Result<(), CountFault> {
    let words: Vec<String> = std::env::args(rt)?.collect(rt.alloc())?;
    match words.split_first() {
        Some((_program, files)) => count_each(rt, files),
        None => Ok(()),
    }
}

fn main(rt: HostRuntime) -> ExitCode {
    match count_all(&rt) {
        Ok(()) => ExitCode::SUCCESS,
        Err(_) => ExitCode::FAILURE,
    }
}
