//! What is asked of schedules.
use crate::fault::WordFault;
use rev_schedule_wishes::{
    Faster, PoolDepth, Waiting, WaitingFault, WishFault, faster_in, jobs_in, pool_in, waits_in,
};
use std::alloc::Global;

/// What is asked, as it was given.
#[derive(Clone, Copy)]
pub struct Asked<'a> {
    /// The numbers of jobs, if they were given.
    pub jobs: Option<&'a str>,
    /// The commands that are to be faster, each as `OUT=FACTOR`.
    pub faster: &'a [&'a str],
    /// The pools that are to have other depths, each as `NAME=DEPTH`.
    pub pools: &'a [&'a str],
    /// The bytes of the file that has the edges which are not to wait for a maker; empty where no file was named.
    pub without: &'a [u8],
    /// Whether JSON is written in place of words.
    pub json: bool,
}

/// What is asked, as it was read.
pub struct Wanted<'a> {
    /// The numbers of jobs; none where they were not given.
    pub jobs: Vec<u32>,
    /// The commands that are to be faster.
    pub faster: Vec<Faster<'a>>,
    /// The pools that are to have other depths.
    pub pools: Vec<PoolDepth<'a>>,
    /// The edges that are not to wait for a maker.
    pub without: Vec<Waiting>,
}

// Written, since a derived drop is proved again at each exit of each caller.
impl Drop for Wanted<'_> {
    fn drop(self) {
        let Wanted {
            jobs: _jobs,
            faster: _faster,
            pools: _pools,
            without: _without,
        } = self;
    }
}

// The numbers of jobs.
fn jobs_of<'a>(alloc: Global, text: Option<&'a str>) -> Result<Vec<u32>, WordFault<'a>> {
    let Some(text) = text else {
        return Ok(Vec::new(alloc));
    };
    match jobs_in(alloc, text.as_bytes()) {
        Ok(jobs) => Ok(jobs),
        Err(WishFault::Form) => Err(WordFault::Jobs),
        Err(WishFault::Memory) => Err(WordFault::Memory),
    }
}

// The commands that are to be faster.
fn faster_of<'a>(alloc: Global, texts: &'a [&'a str]) -> Result<Vec<Faster<'a>>, WordFault<'a>> {
    let mut all = Vec::new(alloc);
    for text in texts {
        let text: &'a str = *text;
        let Some(faster) = faster_in(text.as_bytes()) else {
            return Err(WordFault::Faster(text));
        };
        all.push(faster)?;
    }
    Ok(all)
}

// The pools that are to have other depths.
fn pools_of<'a>(alloc: Global, texts: &'a [&'a str]) -> Result<Vec<PoolDepth<'a>>, WordFault<'a>> {
    let mut all = Vec::new(alloc);
    for text in texts {
        let text: &'a str = *text;
        let Some(pool) = pool_in(text.as_bytes()) else {
            return Err(WordFault::Pool(text));
        };
        all.push(pool)?;
    }
    Ok(all)
}

// The edges that are not to wait for a maker.
fn without_of<'a>(alloc: Global, bytes: &[u8]) -> Result<Vec<Waiting>, WordFault<'a>> {
    match waits_in(alloc, bytes) {
        Ok(waits) => Ok(waits),
        Err(WaitingFault::Line(line)) => Err(WordFault::Line(line)),
        Err(WaitingFault::Memory) => Err(WordFault::Memory),
    }
}

/// Reads what is asked.
///
/// # Errors
/// [`WordFault::Jobs`], [`WordFault::Faster`], [`WordFault::Pool`] and [`WordFault::Line`] where a text has another form;
/// [`WordFault::Memory`] only where an allocation was refused.
pub fn wanted_of<'a>(alloc: Global, asked: Asked<'a>) -> Result<Wanted<'a>, WordFault<'a>> {
    Ok(Wanted {
        jobs: jobs_of(alloc, asked.jobs)?,
        faster: faster_of(alloc, asked.faster)?,
        pools: pools_of(alloc, asked.pools)?,
        without: without_of(alloc, asked.without)?,
    })
}
