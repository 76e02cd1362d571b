//! Which paths of edges come from dyndep files.
ghost use Rattle.std.specs.Prelude.{◌≡◌, ◌≤◌, ◌∷◌, [], List, drop, is_some, length, IfOk, OnOk};
ghost use Rattle.std.specs.Option.{option_copied};
ghost use Rattle.rev_paths.specs.Paths.{place_of};
ghost use Rattle.rev_manifest.specs.Builds.{BuildValue};
ghost use Rattle.rev_dyndep.specs.Told.{without};
ghost use Rattle.rev_dyndep.specs.Origins.{added_at, addition as addition_of, input_file as input_file_in, origins_of, output_file as output_file_in, own_inputs as own_inputs_of, own_outputs as own_outputs_of, with_names};

use crate::resolved::speaks_of;
use crate::told::Told;
use rev_manifest::Build;
use rev_paths::{Name, Paths};
use std::alloc::{AllocError, Global};
use std::marker::Model;

/// A statement of a dyndep file, and the file.
#[derive(Clone, Copy)]
pub struct Stated<'a> {
    /// The file, as the manifest names it.
    pub file: &'a Name,
    /// What the statement says.
    pub told: &'a Told,
}

/// What a dyndep file adds to an edge: the inputs and outputs that its statement lists, and the edge's own line does
/// not.
pub struct Added {
    pub(crate) file: Name,
    pub(crate) inputs: Paths,
    pub(crate) outputs: Paths,
}

impl Drop for Added {
    fn drop(self) {
        let Added {
            file: _file,
            inputs: _inputs,
            outputs: _outputs,
        } = self;
    }
}

impl Added {
    /// The file, as the manifest names it.
    pub fn file(&self) -> &Name
        ensures { result.now ≡ self.now.file }
    {
        &self.file
    }

    /// Whether it adds an input.
    pub fn has_input(&self, path: &Name) -> bool
        ensures { result ≡ is_some (place_of path.now self.now.inputs) }
    {
        self.inputs.find(path).is_some()
    }

    /// Whether it adds an output.
    pub fn has_output(&self, path: &Name) -> bool
        ensures { result ≡ is_some (place_of path.now self.now.outputs) }
    {
        self.outputs.find(path).is_some()
    }
}

// Adds paths to a set.
fn add_all(set: &mut Paths, paths: &[Name]) -> Result<(), AllocError>
    ensures { OnOk result (set.new ≡ with_names paths.now set.old) }
{
    for path in paths {
        set.intern(path)?;
    }
    Ok(())
}

// Adds the paths to a set that are in no other one.
fn add_new(set: &mut Paths, own: &Paths, paths: &[Name]) -> Result<(), AllocError>
    ensures { OnOk result (set.new ≡ with_names (without own.now paths.now) set.old) }
{
    for path in paths {
        if own.find(path).is_none() {
            set.intern(path)?;
        }
    }
    Ok(())
}

// The inputs of an edge's own line, but for validations.
fn own_inputs(alloc: Global, build: &Build) -> Result<Paths, AllocError>
    ensures { IfOk result (λ set. set ≡ own_inputs_of build.now) }
{
    let mut set = Paths::new(alloc);
    add_all(&mut set, build.explicit())?;
    add_all(&mut set, build.implicit())?;
    add_all(&mut set, build.order_only())?;
    Ok(set)
}

// The outputs of an edge's own line.
fn own_outputs(alloc: Global, build: &Build) -> Result<Paths, AllocError>
    ensures { IfOk result (λ set. set ≡ own_outputs_of build.now) }
{
    let mut set = Paths::new(alloc);
    add_all(&mut set, build.explicit_outs())?;
    add_all(&mut set, build.implicit_outs())?;
    Ok(set)
}

// Those of some paths that are in no other set.
fn new_paths(alloc: Global, own: &Paths, paths: &[Name]) -> Result<Paths, AllocError>
    ensures { IfOk result (λ set. set ≡ with_names (without own.now paths.now) []) }
{
    let mut set = Paths::new(alloc);
    add_new(&mut set, own, paths)?;
    Ok(set)
}

// What a statement adds to an edge.
fn addition(alloc: Global, stated: Stated<'_>, build: &Build) -> Result<Added, AllocError>
    ensures { IfOk result (λ added. added ≡ addition_of stated.entry build.now) }
{
    let file = stated.file.copy()?;
    let inputs = new_paths(alloc, &own_inputs(alloc, build)?, stated.told.inputs())?;
    let outputs = new_paths(alloc, &own_outputs(alloc, build)?, stated.told.outputs())?;
    Ok(Added {
        file,
        inputs,
        outputs,
    })
}

// What the next statement adds to an edge, where it speaks of the edge, and how many statements do: one or none.
fn next(
    alloc: Global,
    stated: &[Stated<'_>],
    build: &Build,
) -> Result<(Option<Added>, usize), AllocError>
    ensures rows { IfOk result (λ found. (builds : List BuildValue) → origins_of stated.now (build.now ∷ builds)
        ≡ found.0 ∷ origins_of (drop found.1 stated.now) builds) }
    ensures within { IfOk result (λ found. found.1 ≤ length stated.now) }
{
    if let Some((first, _)) = stated.split_first() {
        if speaks_of(first.told, build) {
            return Ok((Some(addition(alloc, *first, build)?), 1));
        }
    }
    Ok((None, 0))
}

/// Which paths of edges come from dyndep files. Each edge that a statement speaks of has the file of the statement, and
/// the inputs and outputs that the statement lists and the edge's own line does not.
pub struct Origins {
    rows: Vec<Option<Added>>,
}

impl Drop for Origins {
    fn drop(self) {
        let Origins { rows: _rows } = self;
    }
}

impl Model for Origins {
    ghost use Rattle.std.specs.Prelude.{List, Option};
    ghost use Rattle.rev_dyndep.specs.declared.origins.Added.{Added};

    ghost Value = { List (Option Added) };

    ghost view = { λ origins. origins.rows.items };
}

impl Origins {
    /// No path comes from a dyndep file. It takes no memory.
    pub fn none(alloc: Global) -> Origins
        ensures { result ≡ [] }
    {
        Origins {
            rows: Vec::new(alloc),
        }
    }

    /// Which paths of edges come from dyndep files, by the edges of the manifest without what these say, and by the
    /// statements, which stand in the order of the edges that they speak of. Where a statement speaks of none of the
    /// edges that are left, neither it nor a later one adds anything.
    ///
    /// # Errors
    /// [`AllocError`] only where an allocation was refused.
    pub fn new(alloc: Global, plain: &[Build], stated: &[Stated<'_>]) -> Result<Origins, AllocError>
        ensures { IfOk result (λ origins. origins ≡ origins_of stated.now plain.now) }
    {
        let mut rows = Vec::new(alloc);
        let mut place = 0usize;
        for build in plain {
            let (row, taken) = next(alloc, &stated[place..], build)?;
            rows.push(row)?;
            place += taken;
        }
        Ok(Origins { rows })
    }

    /// What a dyndep file adds to an edge; none where no statement speaks of the edge.
    pub fn of(&self, edge: u32) -> Option<&Added>
        ensures { option_copied result ≡ added_at self.now edge }
    {
        match self.rows.get(edge as usize) {
            Some(row) => row.as_ref(),
            None => None,
        }
    }

    /// The dyndep file that adds an input to an edge, as the manifest names the file; none where the edge's own line
    /// has the path, and where no dyndep file lists it for the edge.
    pub fn input_file(&self, edge: u32, path: &Name) -> Option<&Name>
        ensures { option_copied result ≡ input_file_in self.now edge path.now }
    {
        match self.of(edge) {
            Some(added) if added.has_input(path) => Some(added.file()),
            _ => None,
        }
    }

    /// The dyndep file that adds an output to an edge, as the manifest names the file; none where the edge's own line
    /// has the path, and where no dyndep file lists it for the edge.
    pub fn output_file(&self, edge: u32, path: &Name) -> Option<&Name>
        ensures { option_copied result ≡ output_file_in self.now edge path.now }
    {
        match self.of(edge) {
            Some(added) if added.has_output(path) => Some(added.file()),
            _ => None,
        }
    }
}
