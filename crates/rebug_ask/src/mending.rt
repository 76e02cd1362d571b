//! Patches that mend what was found in a recording, or have it happen.
use rev_conflicts_text::Finding;
use rev_desk::Desk;
use rev_folder::plain_files;
use rev_manifest::{Manifest, ReadFault};
use rev_mends::{Own, mend_text, provoke_text};
use rev_races_text::{Report, Sources};
use rev_verdicts::Answer;
use std::alloc::{AllocError, Global};

// The manifest that the user's own files say; none where there are no such files.
fn manifest_in(
    alloc: Global,
    plain: &[(Vec<u8>, Vec<u8>)],
) -> Result<Option<Manifest>, AllocError> {
    if plain.is_empty() {
        return Ok(None);
    }
    match rev_manifest::read(alloc, plain) {
        Ok(manifest) => Ok(Some(manifest)),
        Err(ReadFault::Memory) => Err(AllocError),
        Err(ReadFault::Manifest(_)) => Ok(None),
    }
}

// The user's own manifest, where there is one.
fn own_of<'a>(
    files: &'a [(Vec<u8>, Vec<u8>)],
    plain: &'a [(Vec<u8>, Vec<u8>)],
    manifest: Option<&'a Manifest>,
) -> Option<Own<'a>> {
    match manifest {
        Some(manifest) => Some(Own {
            files,
            plain,
            manifest,
        }),
        None => None,
    }
}

/// The answer that has what mends the findings. `files` are the user's own files of the manifest, where dyndep files
/// say something of it.
///
/// # Errors
/// [`AllocError`] only where an allocation was refused.
pub(crate) fn mend_answer(
    alloc: Global,
    manifest: &Manifest,
    desk: &Desk,
    sources: &Sources<'_>,
    files: &[(Vec<u8>, Vec<u8>)],
    findings: &[Finding<'_>],
    report: &Report<'_>,
) -> Result<Answer, AllocError> {
    let plain = plain_files(alloc, files)?;
    let said = manifest_in(alloc, &plain)?;
    let own = own_of(files, &plain, said.as_ref());
    let graph = desk.history().graph();
    let (races, clashes) = (&report.races, &report.clashes);
    let text = mend_text(
        alloc, manifest, graph, sources, own, races, clashes, findings,
    )?;
    Ok(Answer::text(text, report.status()))
}

/// The answer that has a race of a user and a maker happen, or the sentence that says why there is none. `files` are
/// the user's own files of the manifest, where dyndep files say something of it.
///
/// # Errors
/// [`AllocError`] only where an allocation was refused.
pub(crate) fn provoke_answer(
    alloc: Global,
    manifest: &Manifest,
    desk: &Desk,
    sources: &Sources<'_>,
    files: &[(Vec<u8>, Vec<u8>)],
    race: Option<(u32, u32)>,
) -> Result<Answer, AllocError> {
    let plain = plain_files(alloc, files)?;
    let said = manifest_in(alloc, &plain)?;
    let own = own_of(files, &plain, said.as_ref());
    let graph = desk.history().graph();
    match provoke_text(alloc, manifest, graph, sources, own, race)? {
        Ok(text) => Ok(Answer::text(text, 0)),
        Err(why) => Ok(Answer::NotUnderstood(why.sentence())),
    }
}
