//! Findings in words.
use crate::finding::{Finding, Kind, Reverse};
use crate::lines::{
    DeclareLine, HeadLine, ListLine, ListedLine, OrderLine, UnlistedHead, UnlistedLine, UserLine,
};
use crate::orders::Orders;
use rev_conflicts::Change;
use rev_paths::Name;
use rev_races_text::{Edge, HereLine, More, NO_MEND, Shown, Sources};
use std::alloc::{AllocError, Global};

// How many users of a maker the words have, unless they have all.
const FEW: usize = 3;

// Adds how many are left out.
fn push_more(text: &mut String, count: usize, most: usize) -> Result<(), AllocError> {
    let more = More {
        before: "  and by ",
        more: count.saturating_sub(most) as u64,
        after: " more (--all tells them)\n",
    };
    write!(text, "{more}")
}

// What stands before the first line of a mend, and before each further one.
const MEND: &str = "    mend: ";

const OR: &str = "    or: ";
// What stands behind an order where the other one can be right too.
const LAST_HERE: &str = " (what it does comes last, as here)";

const LAST: &str = " (what it does comes last)";

// What stands around how many more findings an order mends, where these stand behind it and where they do not.
const MENDS: &str = "    the order mends ";

const MENDS_BELOW: &str = " more of this command's races\n";

const MENDS_UNTOLD: &str = " more of this command's races (--all tells them)\n";

// How findings are told.
#[derive(Clone, Copy)]
struct Telling<'b> {
    // The orders that are to be written.
    orders: &'b Orders,
    // Whether all users of a maker are told, and all findings that the order of another one mends.
    is_all: bool,
}

impl Telling<'_> {
    // How many users of a maker, or readers of a path, are told.
    fn most(self) -> usize {
        if self.is_all { usize::MAX } else { FEW }
    }

    // Whether none of some findings of one user is told, since the order of another finding mends each of them.
    fn leaves_out(self, findings: &[Finding<'_>]) -> bool {
        !self.is_all
            && findings
                .iter()
                .all(|finding| self.orders.mended_by(finding).is_some())
    }
}

// The sign before what the user's line is to name.
fn sign_of(finding: &Finding<'_>) -> &'static str {
    if finding.mending.is_listed { "|" } else { "||" }
}

// Adds the line by which an edge waits for what leaves a path, where one can be written.
fn push_order<'a>(
    text: &mut String,
    head: &'static str,
    edge: Edge<'a>,
    sign: &'static str,
    path: Option<&'a Name>,
    end: &'static str,
) -> Result<(), AllocError> {
    let Some(path) = path else {
        return Ok(());
    };
    let line = OrderLine {
        head,
        edge,
        sign,
        path: Shown(path.as_bytes()),
        end,
    };
    write!(text, "{line}")
}

// Adds two orders that can both be right, that of this recording first.
fn push_orders<'a>(
    text: &mut String,
    sources: &Sources<'a>,
    finding: &Finding<'a>,
    reverse: Reverse<'a>,
    head: &'static str,
) -> Result<(), AllocError> {
    let (user, maker) = (finding.user_in(sources), finding.maker_in(sources));
    let (sign, order) = (sign_of(finding), finding.order());
    if reverse.is_here {
        push_order(text, head, maker, "||", reverse.output, LAST_HERE)?;
        return push_order(text, OR, user, sign, order, LAST);
    }
    push_order(text, head, user, sign, order, LAST_HERE)?;
    push_order(text, OR, maker, "||", reverse.output, LAST)
}

// Adds what mends a finding that no order does.
fn push_other_mend<'a>(
    text: &mut String,
    sources: &Sources<'a>,
    finding: &Finding<'a>,
) -> Result<(), AllocError> {
    match finding.kind {
        Kind::Race => text.push_str(NO_MEND),
        Kind::Clash => text.push_str("    mend: another path for one of the two\n"),
        Kind::Unstable | Kind::Anothers => {
            text.push_str("    mend: another path for what it writes there\n")
        }
        Kind::Undeclared => {
            if finding.is_to_be_declared() {
                return Ok(());
            }
            text.push_str("    mend: another path for what it writes there\n")
        }
        Kind::Unlisted => {
            let user = finding.user_in(sources);
            let path = finding.shown();
            write!(text, "{}", ListLine { user, path })
        }
        Kind::Cycle => Ok(()),
    }
}

// Adds what mends a finding.
fn push_mend<'a>(
    text: &mut String,
    sources: &Sources<'a>,
    finding: &Finding<'a>,
) -> Result<(), AllocError> {
    if finding.is_to_be_declared() {
        let maker = finding.maker_in(sources);
        let path = finding.shown();
        write!(text, "{}", DeclareLine { maker, path })?;
    }
    if let Some(reverse) = finding.mending.reverse {
        if finding.kind == Kind::Clash {
            push_other_mend(text, sources, finding)?;
            return push_orders(text, sources, finding, reverse, OR);
        }
        return push_orders(text, sources, finding, reverse, MEND);
    }
    if let Some(order) = finding.order() {
        let user = finding.user_in(sources);
        return push_order(text, MEND, user, sign_of(finding), Some(order), "");
    }
    push_other_mend(text, sources, finding)
}

// Adds the mend of a finding that has a number: the number of the finding whose order mends it too, or else its own
// mend, with how many other findings that order mends.
fn push_mends<'a>(
    text: &mut String,
    sources: &Sources<'a>,
    telling: Telling<'_>,
    finding: &Finding<'a>,
    number: u64,
) -> Result<(), AllocError> {
    if let Some(by) = telling.orders.mended_by(finding) {
        let line = More {
            before: "    mend: the order of [",
            more: by,
            after: "] mends this too\n",
        };
        return write!(text, "{line}");
    }
    push_mend(text, sources, finding)?;
    let line = More {
        before: MENDS,
        more: telling.orders.others(number),
        after: if telling.is_all {
            MENDS_BELOW
        } else {
            MENDS_UNTOLD
        },
    };
    write!(text, "{line}")
}

// Adds the lines of one user behind a maker's, whose path is `told`: it is in these findings, numbered from `number`.
fn push_user<'a>(
    text: &mut String,
    sources: &Sources<'a>,
    telling: Telling<'_>,
    told: Shown<'a>,
    findings: &[Finding<'a>],
    number: u64,
) -> Result<(), AllocError> {
    let Some(first) = findings.first() else {
        return Ok(());
    };
    let line = UserLine {
        kind: first.kind,
        look: first.look,
        change: first.change,
        told,
        path: first.made_in(sources),
        more: (findings.len() as u64).saturating_sub(1),
        user: first.user_in(sources),
        number,
    };
    write!(text, "{line}")?;
    if let Some(story) = first.story {
        write!(text, "{}", HereLine(story))?;
    }
    if let Some(listed) = first.listed {
        write!(text, "{}", ListedLine(Shown(listed.as_bytes())))?;
    }
    push_mends(text, sources, telling, first, number)
}

// Adds the line of a maker.
fn push_maker<'a>(
    text: &mut String,
    sources: &Sources<'a>,
    finding: &Finding<'a>,
) -> Result<(), AllocError> {
    let line = HeadLine {
        kind: finding.kind,
        change: finding.change,
        path: finding.made_in(sources),
        maker: finding.maker_in(sources),
    };
    write!(text, "{line}")
}

// Adds the findings of one maker that are of a kind and by which it does the same. Those of the maker are numbered from
// `number`.
fn push_group<'a>(
    text: &mut String,
    sources: &Sources<'a>,
    telling: Telling<'_>,
    kind: Kind,
    change: Change,
    findings: &[Finding<'a>],
    number: u64,
) -> Result<(), AllocError> {
    let most = telling.most();
    let mut number = number;
    let mut users = 0usize;
    let mut head = None;
    for user in findings.chunk_by(|one, other| {
        one.user == other.user && one.kind == other.kind && one.change == other.change
    }) {
        if let Some(first) = user.first() {
            if first.kind == kind && first.change == change && !telling.leaves_out(user) {
                if head.is_none() {
                    push_maker(text, sources, first)?;
                    head = Some(first.shown());
                }
                if let Some(told) = head {
                    if users < most {
                        push_user(text, sources, telling, told, user, number)?;
                    }
                }
                users = usize::saturating_add(users, 1);
            }
        }
        number = u64::saturating_add(number, user.len() as u64);
    }
    push_more(text, users, most)
}

// Adds the findings about one unlisted input, numbered from `number`, with at most so many of those that read it.
fn push_readers<'a>(
    text: &mut String,
    sources: &Sources<'a>,
    findings: &[Finding<'a>],
    number: u64,
    most: usize,
) -> Result<(), AllocError> {
    let mut number = number;
    for (place, finding) in findings.iter().enumerate() {
        if place == 0 {
            write!(text, "{}", UnlistedHead(finding.shown()))?;
        }
        if place < most {
            let user = finding.user_in(sources);
            write!(text, "{}", UnlistedLine { user, number })?;
            push_mend(text, sources, finding)?;
        }
        number = u64::saturating_add(number, 1);
    }
    push_more(text, findings.len(), most)
}

// Adds the findings about unlisted inputs, numbered from `number`. Those about one path stand together.
fn push_unlisted<'a>(
    text: &mut String,
    sources: &Sources<'a>,
    findings: &[Finding<'a>],
    number: u64,
    most: usize,
) -> Result<(), AllocError> {
    let mut number = number;
    for readers in findings.chunk_by(|one, other| *one.path == *other.path) {
        push_readers(text, sources, readers, number, most)?;
        number = u64::saturating_add(number, readers.len() as u64);
    }
    Ok(())
}

// The findings before the first one about an unlisted input, and the others.
fn unlisted_apart<'b, 'a>(findings: &'b [Finding<'a>]) -> (&'b [Finding<'a>], &'b [Finding<'a>]) {
    let count = findings
        .iter()
        .take_while(|finding| finding.kind != Kind::Unlisted)
        .count();
    findings.split_at(count)
}

// The kinds that are told in groups, in the order in which one maker's are told.
const KINDS: [Kind; 6] = [
    Kind::Race,
    Kind::Cycle,
    Kind::Clash,
    Kind::Unstable,
    Kind::Undeclared,
    Kind::Anothers,
];

// What a maker may do, in the order in which one maker's findings are told.
const CHANGES: [Change; 6] = [
    Change::Output,
    Change::Undeclared,
    Change::Edit,
    Change::Delete,
    Change::Temporary,
    Change::Entry,
];

/// Findings in words. They are numbered from 1 in their order. Those of a maker stand in a group for each kind and for
/// what the maker does. Unlisted inputs come last, and those about one path stand together. Of many users of a maker, or
/// readers of a path, the words have the first, or all (`all`). Findings that the order of another finding mends are
/// counted there, and they have lines of their own where all are told.
///
/// # Errors
/// [`AllocError`] only where an allocation was refused.
pub fn findings_words<'a>(
    alloc: Global,
    sources: &Sources<'a>,
    findings: &[Finding<'a>],
    all: bool,
) -> Result<String, AllocError> {
    numbered_words(alloc, sources, findings, 1, all)
}

/// The same of findings that are numbered from another number.
///
/// # Errors
/// [`AllocError`] only where an allocation was refused.
pub fn numbered_words<'a>(
    alloc: Global,
    sources: &Sources<'a>,
    findings: &[Finding<'a>],
    first: u64,
    all: bool,
) -> Result<String, AllocError> {
    let mut text = String::new(alloc);
    let orders = Orders::new(alloc, findings, first)?;
    let telling = Telling {
        orders: &orders,
        is_all: all,
    };
    let mut number = first;
    let (made, unlisted) = unlisted_apart(findings);
    for maker in made.chunk_by(|one, other| one.maker == other.maker) {
        for kind in KINDS {
            for change in CHANGES {
                push_group(&mut text, sources, telling, kind, change, maker, number)?;
            }
        }
        number = u64::saturating_add(number, maker.len() as u64);
    }
    push_unlisted(&mut text, sources, unlisted, number, telling.most())?;
    Ok(text)
}
