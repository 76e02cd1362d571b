//! What is said of a recording whose observation is of version 1.
ghost use Rattle.std.specs.Prelude.{◌≡◌, IfOk, false, string_bytes};
ghost use Rattle.rev_certainty.specs.Sayings.{SaysFirst, object_says_certain, says_certain};
ghost use Rattle.rev_verdicts.specs.Asked.{Says, SaysExactly, has_baseline};

use crate::answering::{Written, written_with};
use crate::certifying::Wish;
use crate::forms::{Form, items_text, push_clashes, push_findings, push_races};
use crate::objects::CertificateObject;
use crate::stating::NOT_CERTAIN;
use rev_certainty::{certificate_line, first_lines};
use rev_conflicts_text::{Finding, Stale, findings_json, findings_words};
use rev_formats::Item;
use rev_races_text::{Clash, LeftOut, RaceFinding, Replayed, Sources, push_object, race_words};
use std::alloc::{AllocError, Global};

// Why it is not certain.
const RECORD_AGAIN: &str =
    "the recording has version 1 of `observed`, which says too little: record the build again";

/// What is known of a recording whose observation is of version 1.
#[derive(Clone, Copy)]
pub(crate) struct Outdated<'a> {
    /// What answers say of edges.
    pub(crate) sources: Sources<'a>,
    /// What `races` finds by the observation, and what stands in the way by it.
    pub(crate) findings: &'a [Finding<'a>],
    /// The races by lists and by errors.
    pub(crate) races: &'a [RaceFinding<'a>],
    /// The clashes of depfiles and response files.
    pub(crate) clashes: &'a [Clash],
    /// How much of the recording counts.
    pub(crate) replayed: Replayed,
    /// How many commands ran.
    pub(crate) commands: u64,
    /// How many of them were observed whole.
    pub(crate) whole: u64,
    /// How much is left out.
    pub(crate) left_out: LeftOut,
    /// How many findings make a next build other than a build from nothing.
    pub(crate) stale: Stale,
    /// Whether a strict certificate is asked for.
    pub(crate) is_strict: bool,
}

impl<'a> Outdated<'a> {
    // The number of the first race.
    fn first_race(&self) -> u64 {
        (self.findings.len() as u64).saturating_add(1)
    }

    // What is found, in words.
    fn rest(&self, alloc: Global) -> Result<String, AllocError> {
        let mut text = findings_words(alloc, &self.sources, self.findings, true)?;
        let mut number = self.first_race();
        for race in self.races {
            text.push_str(&race_words(alloc, &self.sources, race, number)?)?;
            number = u64::saturating_add(number, 1);
        }
        for clash in self.clashes {
            write!(text, "{}", self.sources.clash(clash))?;
        }
        write!(text, "{}", self.left_out)?;
        Ok(text)
    }

    // The answer in words.
    fn words(&self, alloc: Global) -> Result<Vec<u8>, AllocError>
        ensures { IfOk result (λ text. says_certain text.items ≡ false) }
    {
        let mut text = self.summary(alloc)?;
        let rest = self.rest(alloc)?;
        text.push_str(&rest)?;
        Ok(text.into_bytes())
    }

    // What is said first.
    fn summary(&self, alloc: Global) -> Result<String, AllocError>
        ensures { IfOk result (λ text. SaysFirst says_certain (string_bytes text) false) }
    {
        let text = first_lines(alloc, None, RECORD_AGAIN, self.replayed)?;
        Ok(text)
    }

    // The first object, behind whether it is certain.
    fn object(&self) -> CertificateObject {
        CertificateObject {
            certain_of_what_ran: false,
            version: 1,
            strict: self.is_strict,
            commands: self.commands,
            whole: self.whole,
            assumptions: 0,
            trusted: 0,
            side_files: self.clashes.len() as u64,
            undeclared: self.stale.undeclared,
            unlisted: self.stale.unlisted,
            hidden: self.left_out.hidden,
            known: self.left_out.known,
            ignored: self.left_out.ignored,
        }
    }

    // The other objects.
    fn objects(&self, alloc: Global) -> Result<Vec<u8>, AllocError> {
        let mut text = Vec::new(alloc);
        if !self.replayed.is_whole() {
            push_object(alloc, &mut text, "replayed", &self.replayed)?;
        }
        let findings = findings_json(alloc, &self.sources, self.findings)?;
        text.extend_from_slice(&findings)?;
        Ok(text)
    }

    // The answer as JSON.
    fn json(&self, alloc: Global) -> Result<Vec<u8>, AllocError>
        ensures { IfOk result (λ text. object_says_certain text.items ≡ false) }
    {
        let members = self.object().members(alloc)?;
        let mut text = certificate_line(alloc, None, &members)?;
        let rest = self.objects(alloc)?;
        text.extend_from_slice(&rest)?;
        Ok(text)
    }

    // The findings as items.
    fn items(&self, alloc: Global) -> Result<Vec<Item<'a>>, AllocError> {
        let mut items = Vec::new(alloc);
        push_findings(alloc, &self.sources, self.findings, &mut items)?;
        push_races(
            alloc,
            &self.sources,
            self.races,
            self.first_race(),
            &mut items,
        )?;
        push_clashes(alloc, &self.sources, self.clashes, &mut items)?;
        Ok(items)
    }

    // The answer in a form. A form of items has these.
    fn text(&self, alloc: Global, form: Form, items: &[Item<'_>]) -> Result<Vec<u8>, AllocError>
        ensures { IfOk result (λ text. Says form text.items false) }
    {
        match form {
            Form::Words => {
                let text = self.words(alloc)?;
                Ok(text)
            }
            Form::AllWords => {
                let text = self.words(alloc)?;
                Ok(text)
            }
            Form::Json => {
                let text = self.json(alloc)?;
                Ok(text)
            }
            Form::Items(form) => {
                let text = items_text(alloc, form, items, &self.summary(alloc)?)?;
                Ok(text)
            }
        }
    }

    /// The answer as it is written. It is never certain.
    ///
    /// # Errors
    /// [`AllocError`] only where an allocation was refused.
    pub(crate) fn written(&self, alloc: Global, wish: Wish<'_>) -> Result<Written, AllocError>
        ensures { IfOk result (λ written. SaysExactly false wish.entry.form (has_baseline wish.entry.choice)
            written) }
    {
        let items = if wish.form.is_of_items() || wish.choice.writes {
            self.items(alloc)?
        } else {
            Vec::new(alloc)
        };
        let text = self.text(alloc, wish.form, &items)?;
        let written = written_with(alloc, wish.choice, &items, text, NOT_CERTAIN)?;
        Ok(written)
    }
}
