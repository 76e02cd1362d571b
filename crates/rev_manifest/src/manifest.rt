//! Manifests, and how files are read as one.

ghost use Rattle.std.specs.Prelude.{◌≡◌, ◌≤◌, Ok, None, Some, IfOk, OnOk, IsErrOf, MatchResult};
ghost use Rattle.rev_manifest.specs.Answers.{IsFault, and_then};
ghost use Rattle.rev_manifest.specs.Manifest.{manifest_of, first_fault, declared_by, ended};
ghost use Rattle.rev_manifest.specs.Builds.{IsManifest};
ghost use Rattle.rev_manifest.specs.Seen.{seen_files, seen_parts, seen_pools};
ghost use Rattle.rev_manifest.specs.Held.{seen_declarations};

use crate::builds::Build;
use crate::declarations::{Declarations, nothing};
use crate::ends::{ended, ended_by_threads};
use crate::fault::{FaultKind, ManifestFault, Place, ReadFault};
use crate::files::{Files, bytes_left};
use crate::inclusion::Inclusion;
use crate::reading::read_file;
use rev_paths::Name;
use std::alloc::{AllocError, Global};
use std::marker::Model;
use std::sync::Arc;
use std::thread::Threads;

/// What a manifest has, and its copies share.
pub(crate) struct Parts {
    /// The edges, in the order of their build statements.
    pub(crate) builds: Vec<Build>,
    /// The pools, with their depths, in the order of their numbers.
    pub(crate) pools: Vec<(Vec<u8>, u32)>,
    /// The outputs that are built where no target is named.
    pub(crate) defaults: Vec<Name>,
}

impl Drop for Parts {
    fn drop(self) {
        let Parts {
            builds: _builds,
            pools: _pools,
            defaults: _defaults,
        } = self;
    }
}

/// What a build manifest says. Only [`read`] makes one, and nothing changes it: each of its edges has an output and
/// none twice, a pool of the manifest or none, and where it is phony nothing to run.
pub struct Manifest {
    parts: Arc<Parts>,
}

impl Drop for Manifest {
    fn drop(self) {
        let Manifest { parts: _parts } = self;
    }
}

impl Model for Manifest {
    ghost use Rattle.rev_manifest.specs.Builds.{ManifestValue};

    ghost Value = { ManifestValue };

    ghost use Rattle.rev_manifest.specs.Seen.{value_of, KeepsManifest};

    ghost view = { value_of };

    ghost invariant = { KeepsManifest };
}

impl Manifest {
    /// The manifest of these parts.
    pub(crate) fn new(alloc: Global, parts: Parts) -> Result<Manifest, AllocError>
        requires { IsManifest (seen_parts parts) }
        ensures value { IfOk result (λ manifest. manifest ≡ seen_parts parts) }
        ensures kept { IfOk result IsManifest }
    {
        let parts = Arc::new(alloc, parts)?;
        Ok(Manifest { parts })
    }

    /// An equal manifest, which shares what this one has.
    ///
    /// # Errors
    /// [`AllocError`] where no more copies can be counted.
    pub fn copy(&self) -> Result<Manifest, AllocError>
        ensures equal { IfOk result (λ copy. copy ≡ self.now) }
    {
        Ok(Manifest {
            parts: self.parts.clone()?,
        })
    }

    /// The edges, in the order of their build statements.
    pub fn builds(&self) -> &[Build]
        ensures builds { result.now ≡ self.now.builds }
        ensures kept { IsManifest self.now }
    {
        &self.parts.builds
    }

    /// The pools, with their depths, in the order of their numbers (Ninja manual, pools).
    pub fn pools(&self) -> &[(Vec<u8>, u32)]
        ensures { seen_pools result.now ≡ self.now.pools }
    {
        &self.parts.pools
    }

    /// The outputs that are built where no target is named.
    pub fn defaults(&self) -> &[Name]
        ensures { result.now ≡ self.now.defaults }
    {
        &self.parts.defaults
    }
}

/// The greatest include depth, counting the manifest.
const MOST_DEEP: u32 = 17;

/// The place of a fault about no line.
const NOWHERE: Place = Place { file: 0, line: 0 };

// What all files declare, of which so many bytes more may be read than are given.
fn declared_by(
    alloc: Global,
    files: &[(Vec<u8>, Vec<u8>)],
    left: usize,
) -> Result<Declarations, ReadFault>
    requires { left ≤ 268435456 }
    ensures { MatchResult result
        (λ above. declared_by (seen_files files.now) left ≡ Ok (seen_declarations above))
        (λ fault. IsFault fault (declared_by (seen_files files.now) left)) }
{
    let given = Files::new(alloc, files)?;
    let mut above = nothing(alloc, left + given.content(0).len())?;
    let first = Inclusion {
        file: 0,
        scope: 0,
        place: NOWHERE,
    };
    read_file(alloc, &given, MOST_DEEP, &mut above, Some(first))?;
    Ok(above)
}

// Reads files of which there is one, and which are not too large.
fn read_all(alloc: Global, files: &[(Vec<u8>, Vec<u8>)], left: usize) -> Result<Manifest, ReadFault>
    requires { left ≤ 268435456 }
    ensures meant { MatchResult result
        (λ manifest. and_then (declared_by (seen_files files.now) left) ended ≡ Ok manifest)
        (λ fault. IsFault fault (and_then (declared_by (seen_files files.now) left) ended)) }
    ensures kept { IfOk result IsManifest }
{
    let above = declared_by(alloc, files, left)?;
    let manifest = ended(alloc, above)?;
    Ok(manifest)
}

/// Reads files, each a name and its content. The first is the manifest itself; the others are those that `include` and
/// `subninja` may name.
///
/// # Errors
/// [`ReadFault::Manifest`] with the first fault of the files, and [`ReadFault::Memory`] only where
/// an allocation was refused.
#[tactic(auto, unfolding(crate::specs::Manifest::manifest_of))]
pub fn read(alloc: Global, files: &[(Vec<u8>, Vec<u8>)]) -> Result<Manifest, ReadFault>
    // What is read is what the files say, and they have no fault.
    ensures value { IfOk result (λ manifest. manifest_of (seen_files files.now) ≡ Ok manifest) }
    ensures faultless { OnOk result (first_fault (seen_files files.now) ≡ None) }

    // Whatever the files say, each edge has outputs, none twice, a pool of the manifest or none, and where it is phony
    // nothing to run.
    ensures kept { IfOk result IsManifest }

    // A fault is their first.
    ensures fault { (fault : ManifestFault) → IsErrOf result (ReadFault.Manifest fault)
        → first_fault (seen_files files.now) ≡ Some fault }
{
    let Some(left) = bytes_left(files) else {
        return Err(NOWHERE.fault(FaultKind::TooLarge));
    };
    if files.is_empty() {
        return Err(NOWHERE.fault(FaultKind::NoFile));
    }
    let manifest = read_all(alloc, files, left)?;
    Ok(manifest)
}

// Reads files of which there is one, and which are not too large. Their edges are expanded on several threads, and once
// more on one thread where an edge may have a fault.
fn read_all_by_threads<R: Threads + Sync>(
    rt: &R,
    alloc: Global,
    files: &[(Vec<u8>, Vec<u8>)],
    left: usize,
) -> Result<Manifest, ReadFault>
    requires { left ≤ 268435456 }
    ensures meant { MatchResult result
        (λ manifest. and_then (declared_by (seen_files files.now) left) ended ≡ Ok manifest)
        (λ fault. IsFault fault (and_then (declared_by (seen_files files.now) left) ended)) }
    ensures kept { IfOk result IsManifest }
{
    let above = declared_by(alloc, files, left)?;
    if let Some(manifest) = ended_by_threads(rt, alloc, above)? {
        return Ok(manifest);
    }
    let manifest = read_all(alloc, files, left)?;
    Ok(manifest)
}

/// As [`read`], on as many threads as there are processors: what rules say of edges is expanded side by side.
///
/// # Errors
/// As [`read`].
#[tactic(auto, unfolding(crate::specs::Manifest::manifest_of))]
pub fn read_by_threads<R: Threads + Sync>(
    rt: &R,
    alloc: Global,
    files: &[(Vec<u8>, Vec<u8>)],
) -> Result<Manifest, ReadFault>
    // What is read is what the files say, and they have no fault.
    ensures value { IfOk result (λ manifest. manifest_of (seen_files files.now) ≡ Ok manifest) }
    ensures faultless { OnOk result (first_fault (seen_files files.now) ≡ None) }

    // Whatever the files say, each edge has outputs, none twice, a pool of the manifest or none, and where it is phony
    // nothing to run.
    ensures kept { IfOk result IsManifest }

    // A fault is their first.
    ensures fault { (fault : ManifestFault) → IsErrOf result (ReadFault.Manifest fault)
        → first_fault (seen_files files.now) ≡ Some fault }
{
    let Some(left) = bytes_left(files) else {
        return Err(NOWHERE.fault(FaultKind::TooLarge));
    };
    if files.is_empty() {
        return Err(NOWHERE.fault(FaultKind::NoFile));
    }
    let manifest = read_all_by_threads(rt, alloc, files, left)?;
    Ok(manifest)
}
