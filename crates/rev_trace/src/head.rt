//! What the opening lines of a trace make.
ghost use Rattle.std.specs.Prelude.{◌≡◌, ◌&&◌, Some, None, OnOk, IfOk, IsErrOf};
ghost use Rattle.rev_fields.specs.declared.faults.FaultKind.{FaultKind};
ghost use Rattle.rev_fields.specs.Parts.{lent_of};
ghost use Rattle.rev_trace.specs.Heads.{IsAdded, record_fault, seen};
ghost use Rattle.rev_trace.specs.Records.{empty_head, gives_jobs, head_with, opening_wrong, record_wrong};

use crate::events::BAD_LINE;
use crate::mentions::Mentions;
use crate::record::Record;
use crate::records::{gives_jobs, record};
use rev_cells::{BuiltRecord, DepsRecord, Opening, OpeningFault};
use rev_fields::{FaultKind, LineFault, lent_fields};
use rev_paths::Name;
use std::alloc::Global;
use std::borrow::CowSlice;

/// The jobs and records, the targets, and whether the jobs were given.
#[derive(Drop)]
pub(crate) struct Head {
    /// The jobs and records.
    pub(crate) opening: Opening,
    /// What the build was asked for.
    pub(crate) targets: Vec<Name>,
    /// Whether a line gave the jobs.
    pub(crate) has_jobs: bool,
}

// What a refusal of an opening means for the line. There are no more records of one kind for a path than one.
fn line_fault(fault: OpeningFault) -> LineFault
    ensures { result ≡ record_fault fault }
{
    match fault {
        OpeningFault::Memory => LineFault::Memory,
        OpeningFault::BadJobs => LineFault::Kind(FaultKind::Number),
        OpeningFault::DoubleRecord => LineFault::Kind(FaultKind::DoubleRecord),
    }
}

/// What no opening line makes: one job, and nothing else.
pub(crate) fn empty_head(alloc: Global) -> Result<Head, LineFault>
    ensures empty { IfOk result (λ head. seen head ≡ empty_head) }
    ensures memory { (kind : FaultKind) → IsErrOf result (LineFault.Kind kind) → ⊥ }
{
    let Ok(opening) = Opening::new(alloc, 1) else {
        return Err(LineFault::Memory);
    };
    Ok(Head {
        opening,
        targets: Vec::new(alloc),
        has_jobs: false,
    })
}

// Adds what an opening line says.
fn add(head: &mut Head, said: Record) -> Result<(), LineFault>
    ensures ok { OnOk result (seen head.new ≡ head_with (seen head.old) said) }
    ensures sound { OnOk result (record_wrong (seen head.old) said ≡ None) }
    ensures fault { (kind : FaultKind) → IsErrOf result (LineFault.Kind kind)
        → record_wrong (seen head.old) said ≡ Some kind }
{
    match said {
        Record::Jobs(jobs) => {
            if let Err(fault) = head.opening.set_jobs(jobs) {
                return Err(line_fault(fault));
            }
            head.has_jobs = true;
            Ok(())
        }
        Record::Stamp(path, stamp) => match head.opening.add_stamp(path, stamp) {
            Ok(()) => Ok(()),
            Err(fault) => Err(line_fault(fault)),
        },
        Record::Built(path, stamp, command) => {
            match head
                .opening
                .add_built_record(path, BuiltRecord { command, stamp })
            {
                Ok(()) => Ok(()),
                Err(fault) => Err(line_fault(fault)),
            }
        }
        Record::Deps(path, stamp, paths) => {
            match head
                .opening
                .add_deps_record(path, DepsRecord { stamp, paths })
            {
                Ok(()) => Ok(()),
                Err(fault) => Err(line_fault(fault)),
            }
        }
        Record::Target(path) => {
            head.targets.push(path)?;
            Ok(())
        }
    }
}

// Whether a line with these texts gives the jobs a second time.
fn is_second(head: &Head, texts: &[CowSlice<'_, u8>]) -> bool
    ensures { result ≡ (head.now.has_jobs && gives_jobs (lent_of texts.now)) }
{
    head.has_jobs && gives_jobs(texts)
}

/// Adds an opening line.
pub(crate) fn add_line(
    alloc: Global,
    mentions: &mut Mentions,
    head: &mut Head,
    line: &[u8],
) -> Result<(), LineFault>
    ensures ok { OnOk result (IsAdded (seen head.old) line.now (seen head.new)) }
    ensures fault { (kind : FaultKind) → IsErrOf result (LineFault.Kind kind)
        → opening_wrong (seen head.old) line.now ≡ Some kind }
{
    let texts = lent_fields(alloc, line)?;
    if is_second(head, &texts) {
        return Err(BAD_LINE);
    }
    let said = record(alloc, mentions, &texts)?;
    add(head, said)
}
