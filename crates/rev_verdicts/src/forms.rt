//! The forms of an answer that continuous integration reads.
use rev_conflicts_text::{Finding, kind_word, numbered_words};
use rev_formats::{Item, baseline, github, junit, sarif};
use rev_races_text::{Clash, Edge, RaceFinding, Report, SideFile, Sources, race_words};
use std::alloc::{AllocError, Global};

/// A form that has an item for each finding.
#[derive(Clone, Copy, Debug, PartialEq, Eq)]
pub enum ItemForm {
    /// GitHub's workflow commands.
    Github,
    /// SARIF 2.1.0.
    Sarif,
    /// JUnit's XML.
    Junit,
}

/// The form of an answer.
#[derive(Clone, Copy, Debug, PartialEq, Eq)]
pub enum Form {
    /// Words, of each maker the first users.
    Words,
    /// Words, with nothing left out.
    AllWords,
    /// A JSON object a line.
    Json,
    /// Items.
    Items(ItemForm),
}

impl Form {
    /// The form of a name.
    pub fn named(name: &str) -> Option<Form> {
        match name {
            "words" => Some(Form::Words),
            "json" => Some(Form::Json),
            "github" => Some(Form::Items(ItemForm::Github)),
            "sarif" => Some(Form::Items(ItemForm::Sarif)),
            "junit" => Some(Form::Items(ItemForm::Junit)),
            _ => None,
        }
    }

    /// Whether this form has items.
    pub fn is_of_items(self) -> bool {
        matches!(self, Form::Items(_))
    }
}

/// Items in a form, with a summary.
///
/// # Errors
/// [`AllocError`] only where an allocation was refused.
pub fn items_text(
    alloc: Global,
    form: ItemForm,
    items: &[Item<'_>],
    summary: &str,
) -> Result<Vec<u8>, AllocError> {
    match form {
        ItemForm::Github => github(alloc, items, summary),
        ItemForm::Sarif => sarif(alloc, items, summary),
        ItemForm::Junit => junit(alloc, items, summary),
    }
}

/// The text of a baseline that knows items.
///
/// # Errors
/// [`AllocError`] only where an allocation was refused.
pub fn baseline_text(
    alloc: Global,
    items: &[Item<'_>],
    earlier: Option<&[u8]>,
) -> Result<Vec<u8>, AllocError> {
    baseline(alloc, items, earlier.unwrap_or(b""))
}

// The file of the build statement of an edge; empty where it is not known.
fn file_of<'a>(edge: Edge<'a>) -> &'a [u8] {
    match edge.file {
        Some(file) => file.0,
        None => b"",
    }
}

/// Adds findings by an observation, which are numbered from 1.
///
/// # Errors
/// [`AllocError`] only where an allocation was refused.
pub fn push_findings<'a>(
    alloc: Global,
    sources: &Sources<'a>,
    findings: &[Finding<'a>],
    items: &mut Vec<Item<'a>>,
) -> Result<(), AllocError> {
    let mut number = 1u64;
    for finding in findings {
        let text = numbered_words(alloc, sources, &[*finding], number, true)?;
        let place = finding.place(sources);
        items.push(Item {
            id: finding.id(sources),
            kind: kind_word(finding.kind),
            is_error: !finding.is_of_next_build(),
            path: finding.path.as_bytes(),
            maker: finding.maker_output(sources),
            user: sources.output(finding.user),
            file: file_of(place),
            line: place.line.unwrap_or(1),
            text,
        })?;
        number = u64::saturating_add(number, 1);
    }
    Ok(())
}

// The word of the kind of a race by a list.
fn race_word(kind: rev_races_text::Kind) -> &'static str {
    match kind {
        rev_races_text::Kind::Race => "race",
        rev_races_text::Kind::Cycle => "cycle",
        rev_races_text::Kind::Own => "own",
    }
}

/// Adds races by lists or errors, which are numbered from a number.
///
/// # Errors
/// [`AllocError`] only where an allocation was refused.
pub fn push_races<'a>(
    alloc: Global,
    sources: &Sources<'a>,
    races: &[RaceFinding<'a>],
    first: u64,
    items: &mut Vec<Item<'a>>,
) -> Result<(), AllocError> {
    let mut number = first;
    for race in races {
        let place = sources.user(race);
        items.push(Item {
            id: sources.race_id(race),
            kind: race_word(race.kind),
            is_error: true,
            path: race.path.as_bytes(),
            maker: sources.output(race.maker),
            user: sources.output(race.user),
            file: file_of(place),
            line: place.line.unwrap_or(1),
            text: race_words(alloc, sources, race, number)?,
        })?;
        number = u64::saturating_add(number, 1);
    }
    Ok(())
}

// A clash of side files, with its words.
fn clash_item<'a>(sources: &Sources<'a>, clash: &Clash, text: String) -> Item<'a> {
    let line = sources.clash(clash);
    Item {
        id: sources.clash_id(clash),
        kind: match clash.kind {
            SideFile::Depfile => "depfile clash",
            SideFile::ResponseFile => "rspfile clash",
        },
        is_error: true,
        path: match line.path {
            Some(path) => path.0,
            None => b"",
        },
        maker: sources.output(clash.first),
        user: sources.output(clash.other),
        file: file_of(line.other),
        line: line.other.line.unwrap_or(1),
        text,
    }
}

/// Adds clashes of side files.
///
/// # Errors
/// [`AllocError`] only where an allocation was refused.
pub fn push_clashes<'a>(
    alloc: Global,
    sources: &Sources<'a>,
    clashes: &[Clash],
    items: &mut Vec<Item<'a>>,
) -> Result<(), AllocError> {
    for clash in clashes {
        let line = sources.clash(clash);
        let text = format!(in alloc; "{line}")?;
        items.push(clash_item(sources, clash, text))?;
    }
    Ok(())
}

/// All that is found of a report, as items.
///
/// # Errors
/// [`AllocError`] only where an allocation was refused.
pub fn report_items<'a>(
    alloc: Global,
    sources: &Sources<'a>,
    findings: &[Finding<'a>],
    report: &Report<'a>,
) -> Result<Vec<Item<'a>>, AllocError> {
    let mut items = Vec::new(alloc);
    push_findings(alloc, sources, findings, &mut items)?;
    let first = report.before.saturating_add(1);
    push_races(alloc, sources, &report.races, first, &mut items)?;
    push_clashes(alloc, sources, &report.clashes, &mut items)?;
    Ok(items)
}
