//! What the statements above a place declare.
ghost use Rattle.std.specs.Prelude.{◌≡◌, IfOk};
ghost use Rattle.rev_manifest.specs.Declarations.{nothing};
ghost use Rattle.rev_manifest.specs.Held.{seen_declarations};

use crate::edge_paths::EdgePaths;
use crate::fault::Place;
use crate::pools::Pools;
use rev_paths::{Name, Paths};
use rev_scopes::{Bindings, Rule, Scopes};
use std::alloc::{AllocError, Global};

/// The most bytes of values that all files may make. A value that shares the bytes of another makes none.
const MAX_MADE_BYTES: usize = 17_179_869_184;

/// An edge before all files are read.
#[derive(Drop)]
pub(crate) struct DeclaredEdge {
    /// Its rule as it stands in the scopes at the build line; `phony` is none.
    pub(crate) rule: Option<Rule>,
    /// The values of its block.
    pub(crate) block: Bindings,
    /// The scope of its build line.
    pub(crate) scope: usize,
    /// Its paths.
    pub(crate) paths: EdgePaths,
    /// Where its statement stands.
    pub(crate) place: Place,
}

/// What the statements so far declare.
#[derive(Drop)]
pub(crate) struct Declarations {
    /// The scopes of variables and rules.
    pub(crate) scopes: Scopes,
    /// The pools, which are known in all files.
    pub(crate) pools: Pools,
    /// The edges, in reading order.
    pub(crate) edges: Vec<DeclaredEdge>,
    /// What `default` statements name, if there was one.
    pub(crate) defaults: Option<Vec<Name>>,
    /// The paths so far, each once; equal ones share their bytes.
    pub(crate) paths: Paths,
    /// The bytes that may still be read.
    pub(crate) room: usize,
    /// The bytes of values that may still be made.
    pub(crate) value_room: usize,
}

/// What stands above the first statement: the manifest's scope and the pool `console`. So many bytes may be read.
pub(crate) fn nothing(alloc: Global, room: usize) -> Result<Declarations, AllocError>
    ensures { IfOk result (λ above. seen_declarations above ≡ nothing room) }
{
    let mut scopes = Scopes::new(alloc);
    scopes.add(alloc, None)?;
    Ok(Declarations {
        scopes,
        pools: Pools::new(alloc)?,
        edges: Vec::new(alloc),
        defaults: None,
        paths: Paths::new(alloc),
        room,
        value_room: MAX_MADE_BYTES,
    })
}
