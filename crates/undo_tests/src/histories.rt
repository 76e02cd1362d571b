// That the lists of a history find what a look at each kept event finds, and how often its cells are written.
use crate::builds::{LINKS, NOTHING, OBJECTS, SOURCES, opened, says};
use rev_cells::Cell;
use rev_footprint::Footprint;
use rev_history::{History, KeptCells, KeptFootprint};
use std::alloc::{AllocError, Global};

// A manifest, the trace as which a history opens, what is said in it, how many lines are accepted, and how often cells
// are written then. A plan writes the mark of each edge and whether the build is halted. A start writes a mark, a job,
// and a slot of a pool. A finish writes these, and a stamp and a record of each output. What takes an event back writes
// the same cells again, and what is refused writes none.
type Row = (&'static str, &'static str, &'static str, u32, u64);

// Whether the event of a kept number conflicts with a footprint that is lent.
fn conflicts(history: &History, number: u32, footprint: &KeptFootprint<'_>) -> bool {
    match history.footprint_of(number) {
        Some(other) => rev_history::conflict(footprint, &other),
        None => false,
    }
}

// The least kept number above another whose event conflicts with a footprint that is lent, by a look at each.
fn scanned(history: &History, number: u32, footprint: &KeptFootprint<'_>) -> Option<u32> {
    for kept in history.kept() {
        if number < *kept && conflicts(history, *kept, footprint) {
            return Some(*kept);
        }
    }
    None
}

// Whether the lists find what the look at each finds, from each number on, for the footprint of a kept event.
fn agrees(history: &History, kept: u32, footprint: &KeptFootprint<'_>) -> bool {
    for number in 0..history.last() {
        if history.nearest_to(number, kept) != scanned(history, number, footprint) {
            return false;
        }
    }
    true
}

// Whether the event of a kept number conflicts with a footprint.
fn conflicts_with(
    history: &History,
    number: u32,
    footprint: &Footprint,
) -> Result<bool, AllocError> {
    match history.footprint_copy(number)? {
        Some(other) => Ok(rev_footprint::conflict(footprint, &other)),
        None => Ok(false),
    }
}

// The least kept number above another whose event conflicts with a footprint, by a look at each.
fn looked_for(
    history: &History,
    number: u32,
    footprint: &Footprint,
) -> Result<Option<u32>, AllocError> {
    for kept in history.kept() {
        if number < *kept && conflicts_with(history, *kept, footprint)? {
            return Ok(Some(*kept));
        }
    }
    Ok(None)
}

// Whether the lists find what the look at each finds, from each number on, for a footprint.
fn finds(history: &History, footprint: &Footprint) -> Result<bool, AllocError> {
    for number in 0..history.last() {
        if history.nearest(number, footprint) != looked_for(history, number, footprint)? {
            return Ok(false);
        }
    }
    Ok(true)
}

// Whether these are the cells that are lent, in their order.
fn are_lent(cells: &[Cell], lent: &KeptCells<'_>) -> bool {
    for index in 0..lent.len() {
        if cells.get(index) != Some(lent.at(index)) {
            return false;
        }
    }
    cells.len() == lent.len()
}

// Whether a copy has the cells that are lent, in their order.
fn is_copy(copy: &Footprint, lent: &KeptFootprint<'_>) -> bool {
    copy.whole() == lent.whole()
        && are_lent(copy.reads(), &lent.reads())
        && are_lent(copy.writes(), &lent.writes())
}

// Whether all this holds of the footprint of a kept event, as it is lent and as a copy.
fn holds_of(history: &History, kept: u32, lent: &KeptFootprint<'_>) -> Result<bool, AllocError> {
    match history.footprint_copy(kept)? {
        Some(copy) => {
            Ok(is_copy(&copy, lent) && agrees(history, kept, lent) && finds(history, &copy)?)
        }
        None => Ok(false),
    }
}

// Whether it does of the footprint of each kept event.
fn all_agree(history: &History) -> Result<bool, AllocError> {
    for kept in history.kept() {
        match history.footprint_of(*kept) {
            Some(lent) => {
                if !holds_of(history, *kept, &lent)? {
                    return Ok(false);
                }
            }
            None => return Ok(false),
        }
    }
    Ok(true)
}

// How many of these lines are accepted, where lists and looks agree after each.
fn agreed(alloc: Global, history: &mut History, lines: &str) -> Result<Option<u32>, AllocError> {
    let mut place = 0_u32;
    let mut count = 0_u32;
    for line in lines.split("; ") {
        place = place.saturating_add(1);
        count = count.saturating_add(u32::from(says(alloc, history, place, line)?));
        if !all_agree(history)? {
            return Ok(None);
        }
    }
    Ok(Some(count))
}

// Whether so many lines of a row are accepted as it says, where lists and looks agree after each, and cells are written
// as often.
fn agreed_on(alloc: Global, row: &Row) -> Result<bool, AllocError> {
    let (manifest, records, lines, count, writes) = *row;
    let mut history = opened(alloc, manifest, records)?;
    let found = agreed(alloc, &mut history, lines)?;
    Ok(found == Some(count) && history.cells().writes() == writes)
}

fn is_agreed_on(alloc: Global, row: &Row) -> bool {
    match agreed_on(alloc, row) {
        Ok(agreed) => agreed,
        Err(_) => false,
    }
}

const STARTED: Row = (
    OBJECTS,
    SOURCES,
    "plan app; start a.o 0; start b.o 1; finish a.o 100; finish b.o 110; start app 0; undo 4; undo 1; cone 3",
    7,
    26,
);

const PLANNED: Row = (
    OBJECTS,
    "rebug-trace 1\njobs 2\n\
stamp a.c 10\nstamp b.c 20\nstamp b.o 110\nstamp app 120\nbuilt b.o 110 cc\\s-c\\sb.c\\s-o\\sb.o\nbuilt app 120 ld\\sa.o\\sb.o\\s-o\\sapp\n",
    "plan app",
    1,
    4,
);

const TOUCHED: Row = (
    OBJECTS,
    SOURCES,
    "plan app; touch a.c 10; start a.o 0; undo 2",
    3,
    7,
);

const OUT_OF_ORDER: Row = (
    OBJECTS,
    SOURCES,
    "plan app; start a.o 0; start b.o 1; finish a.o 100; finish b.o 110; undo 4; redo 4; undo 5; undo 3; redo 5; redo 3; redo 5; redo 5",
    11,
    36,
);

const INTERRUPTED: Row = (
    OBJECTS,
    SOURCES,
    "plan app; start a.o 0; interrupt; undo 2",
    3,
    7,
);

const OVERTAKEN: Row = (
    OBJECTS,
    NOTHING,
    "touch a.c 11; undo 1; touch a.c 12; redo 1; redo 2",
    3,
    3,
);

const RESTATED: Row = (
    "rule gen\n  command = gen\n  restat = 1\nrule cp\n  command = cp $in $out\n\
build p q: gen s\nbuild u: cp p\nbuild v: cp q\n",
    "rebug-trace 1\njobs 2\n\
stamp s 50\nstamp p 10\nstamp q 10\nstamp u 20\nstamp v 20\nbuilt p 10 gen\nbuilt q 10 gen\nbuilt u 20 cp\\sp\\su\nbuilt v 20 cp\\sq\\sv\n",
    "plan; start p 0; finish q 60,10; start v 0; clean u; clean v; start u 0",
    5,
    15,
);

const THROUGH_PHONY: Row = (
    "rule gen\n  command = gen $out\nrule cc\n  command = cc $in $out\n\
build g.h: gen\nbuild grp: phony || g.h\nbuild x.o: cc x.c || grp\n",
    "rebug-trace 1\njobs 2\n\
stamp x.c 5\n",
    "plan x.o; start x.o 1; start g.h 0; start x.o 1; finish g.h 7; start x.o 1; pass grp; start x.o 1",
    5,
    13,
);

const RESIZED: Row = (
    LINKS,
    NOTHING,
    "plan; start a 0 0; resize 1 2; start b 1 1; resize 1 1; undo 3; finish b 6; resize 1 1; undo 7; back",
    7,
    17,
);

// Undo and a step back write what the event wrote; what is refused writes nothing.
const WRITTEN: &[Row] = &[
    ("", NOTHING, "touch a 5; touch b 6", 2, 2),
    ("", NOTHING, "touch a 5; touch b 6; undo 1", 3, 3),
    ("", NOTHING, "touch a 5; touch b 6; undo 1; back", 4, 4),
    ("", NOTHING, "touch a 5; touch a 6; undo 1; redo 2", 2, 2),
    (
        OBJECTS,
        SOURCES,
        "plan app; start a.o 0; start b.o 1; finish a.o 100; finish b.o 110",
        5,
        16,
    ),
    (
        OBJECTS,
        SOURCES,
        "plan app; start a.o 0; start b.o 1; finish a.o 100; finish b.o 110; undo 4",
        6,
        20,
    ),
    (
        OBJECTS,
        SOURCES,
        "plan app; start a.o 0; start b.o 1; finish a.o 100; finish b.o 110; undo 4; undo 5; undo 3; undo 2",
        9,
        28,
    ),
    (
        OBJECTS,
        SOURCES,
        "plan app; start a.o 0; start b.o 1; finish a.o 100; finish b.o 110; undo 4; undo 5; undo 3; undo 2; back",
        10,
        32,
    ),
];

const ROWS: &[Row] = &[
    STARTED,
    PLANNED,
    TOUCHED,
    OUT_OF_ORDER,
    INTERRUPTED,
    OVERTAKEN,
    RESTATED,
    THROUGH_PHONY,
    RESIZED,
];

#[test]
fn the_lists_find_what_a_look_at_each_finds(rt: HostRuntime) {
    for row in ROWS {
        assert!(rt; is_agreed_on(rt.alloc(), row), "{}", row.2);
    }
}

#[test]
fn writes_are_counted(rt: HostRuntime) {
    for row in WRITTEN {
        assert!(rt; is_agreed_on(rt.alloc(), row), "{}", row.2);
    }
}
