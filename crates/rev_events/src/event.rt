//! Events.
ghost use Rattle.std.specs.Prelude.{◌≡◌, IfOk};

use crate::listed_paths::ListedPaths;
use crate::stamps::Stamps;
use rev_cells::{Names, Text};
use rev_paths::Name;
use std::alloc::AllocError;

/// What is said of the files that a command read.
#[derive(Debug, PartialEq, Eq, Hash)]
pub enum Listing {
    /// Nothing.
    Nothing,
    /// The text of the depfile that the command wrote (Ninja manual, depfile).
    Depfile(Text),
    /// The paths as they were listed, repeated ones too.
    Paths(ListedPaths),
}

impl Drop for Listing {
    fn drop(self) {
        match self {
            Listing::Nothing => {}
            Listing::Depfile(_part) => {}
            Listing::Paths(_part) => {}
        }
    }
}

impl Listing {
    /// An equal listing.
    pub fn copy(&self) -> Result<Listing, AllocError>
        ensures { IfOk result (λ copy. copy ≡ self.now) }
    {
        self.clone()
    }
}

impl Clone for Listing {
    ghost is_clone = { λ listing copy. copy ≡ listing };

    fn clone(&self) -> Result<Listing, AllocError> {
        match self {
            Listing::Nothing => Ok(Listing::Nothing),
            Listing::Depfile(text) => Ok(Listing::Depfile(text.copy()?)),
            Listing::Paths(paths) => Ok(Listing::Paths(paths.copy()?)),
        }
    }
}

/// What happened in a build. An edge is named by any of its outputs; stamps of its outputs stand in the order of the
/// outputs, explicit before implicit.
#[derive(Debug, PartialEq, Eq, Hash)]
pub enum Event {
    /// The edges that are needed for these targets are marked; the graph's defaults where no target is named.
    Plan(Names),
    /// The command of an edge begins to run in a job, and in a slot of the edge's pool where that has slots.
    Start {
        out: Name,
        job: u32,
        slot: Option<u32>,
    },
    /// The command ended well: its outputs have these stamps, and it read these files.
    Finish {
        out: Name,
        stamps: Stamps,
        listing: Listing,
    },
    /// The command failed.
    Fail {
        out: Name,
        stamps: Stamps,
    },
    /// The command was stopped, since the build was interrupted.
    Abort {
        out: Name,
        stamps: Stamps,
    },
    /// The edge was found to need no run.
    Clean {
        out: Name,
    },
    /// A phony edge, or one that only waited for others, is done.
    Pass {
        out: Name,
    },
    /// The file at a path was given a stamp, which is 0 where it was removed. It is never refused.
    Touch {
        path: Name,
        stamp: u64,
    },
    /// The build was interrupted.
    Interrupt,
    /// A pool was given another depth (Ninja manual, pools; there a pool keeps its depth). Pools are named by their
    /// numbers; the depth is from 1 to 1,024.
    Resize {
        pool: u32,
        depth: u32,
    },
}

impl Drop for Event {
    fn drop(self) {
        match self {
            Event::Plan(_part) => {}
            Event::Start {
                out: _out,
                job: _job,
                slot: _slot,
            } => {}
            Event::Finish {
                out: _out,
                stamps: _stamps,
                listing: _listing,
            } => {}
            Event::Fail {
                out: _out,
                stamps: _stamps,
            } => {}
            Event::Abort {
                out: _out,
                stamps: _stamps,
            } => {}
            Event::Clean { out: _out } => {}
            Event::Pass { out: _out } => {}
            Event::Touch {
                path: _path,
                stamp: _stamp,
            } => {}
            Event::Interrupt => {}
            Event::Resize {
                pool: _pool,
                depth: _depth,
            } => {}
        }
    }
}

impl Event {
    /// An equal event.
    pub fn copy(&self) -> Result<Event, AllocError>
        ensures { IfOk result (λ copy. copy ≡ self.now) }
    {
        self.clone()
    }
}

impl Clone for Event {
    ghost is_clone = { λ event copy. copy ≡ event };

    fn clone(&self) -> Result<Event, AllocError> {
        match self {
            Event::Plan(targets) => Ok(Event::Plan(targets.copy()?)),
            Event::Start { out, job, slot } => Ok(Event::Start {
                out: out.copy()?,
                job: *job,
                slot: *slot,
            }),
            Event::Finish {
                out,
                stamps,
                listing,
            } => Ok(Event::Finish {
                out: out.copy()?,
                stamps: stamps.copy()?,
                listing: listing.copy()?,
            }),
            Event::Fail { out, stamps } => Ok(Event::Fail {
                out: out.copy()?,
                stamps: stamps.copy()?,
            }),
            Event::Abort { out, stamps } => Ok(Event::Abort {
                out: out.copy()?,
                stamps: stamps.copy()?,
            }),
            Event::Clean { out } => Ok(Event::Clean { out: out.copy()? }),
            Event::Pass { out } => Ok(Event::Pass { out: out.copy()? }),
            Event::Touch { path, stamp } => Ok(Event::Touch {
                path: path.copy()?,
                stamp: *stamp,
            }),
            Event::Interrupt => Ok(Event::Interrupt),
            Event::Resize { pool, depth } => Ok(Event::Resize {
                pool: *pool,
                depth: *depth,
            }),
        }
    }
}
