//! The bytes that the program prints of `examples/flaky/passed`: `needs 5` of `ask`, and the race of `races`.
use crate::needs::{Action, Event, Link, Needs, push_needs};
use crate::race::{Edge, Race, push_race};
use rev_document::{Document, Writer};
use rev_document_json::json_of;
use rev_document_words::{Look, words_of};
use std::alloc::AllocError;

const NEEDS_WORDS: &[u8] =
    b"5 start text.o (job 3) rests on\n  1 plan app through the mark of text.o\n";

const NEEDS_JSON: &[u8] =
    b"{\"all\":false,\"event\":{\"job\":3,\"kept\":true,\"kind\":\"start\",\"number\":5,\"path\":\"text.o\",\"time\":70,\"words\":\"start text.o (job 3)\"},\"events\":[{\"cell\":\"mark\",\"event\":{\"job\":null,\"kept\":true,\"kind\":\"plan\",\"number\":1,\"path\":null,\"targets\":[\"app\"],\"time\":0,\"words\":\"plan app\"},\"of\":\"text.o\",\"other\":5,\"through\":\"the mark of text.o\"}],\"kind\":\"needs\",\"observed\":null}\n";

const RACE_WORDS: &[u8] =
    b"race version.h made by version.h (build.ninja:14)\n  used by main.o (build.ninja:19), which does not wait for it [1]\n    here: the maker ended at 6, the user began at 12; free: nothing held it\n    mend: build.ninja:19: build main.o: ... || version.h\n";

const RACE_JSON: &[u8] =
    b"{\"kind\":\"race\",\"number\":1,\"id\":\"a8a4fcf42eb58d0f\",\"path\":\"version.h\",\"maker\":{\"began\":2,\"ended\":6,\"file\":\"build.ninja\",\"line\":14,\"output\":\"version.h\"},\"user\":{\"began\":12,\"ended\":13,\"file\":\"build.ninja\",\"line\":19,\"output\":\"main.o\"},\"here\":\"free\",\"basis\":\"finish\",\"mend\":\"version.h\"}\n";

// The document of the first answer.
fn needs_document(alloc: std::alloc::Global) -> Result<Document, AllocError> {
    let event = Event {
        number: 5,
        action: Action::Start(b"text.o", 3),
        is_kept: true,
        time: Some(70),
    };
    let plan = Event {
        number: 1,
        action: Action::Plan(b"app"),
        is_kept: true,
        time: Some(0),
    };
    let links = [Link {
        event: plan,
        other: 5,
        mark: b"text.o",
    }];
    let mut writer = Writer::new(alloc);
    push_needs(
        &mut writer,
        &Needs {
            event,
            links: &links,
        },
    );
    writer.finish()
}

// The document of the second answer.
fn race_document(alloc: std::alloc::Global) -> Result<Document, AllocError> {
    let maker = Edge {
        began: 2,
        ended: 6,
        file: b"build.ninja",
        line: 14,
        output: b"version.h",
    };
    let user = Edge {
        began: 12,
        ended: 13,
        file: b"build.ninja",
        line: 19,
        output: b"main.o",
    };
    let race = Race {
        number: 1,
        id: b"a8a4fcf42eb58d0f",
        path: b"version.h",
        maker,
        user,
        mend: b"version.h",
    };
    let mut writer = Writer::new(alloc);
    push_race(&mut writer, &race);
    writer.finish()
}

// Whether a document has these words and this JSON.
fn is_printed(
    alloc: std::alloc::Global,
    document: &Document,
    words: &[u8],
    json: &[u8],
) -> Result<bool, AllocError> {
    let look = Look {
        is_coloured: false,
        is_all: false,
    };
    let made = words_of(alloc, document, look)?;
    if made.as_slice() != words {
        return Ok(false);
    }
    let made = json_of(alloc, document)?;
    Ok(made.as_slice() == json)
}

#[test]
fn needs_is_as_ask_prints_it(rt: HostRuntime) -> Result<(), AllocError> {
    let document = needs_document(rt.alloc())?;
    let is = is_printed(rt.alloc(), &document, NEEDS_WORDS, NEEDS_JSON)?;
    assert!(rt; is, "needs");
    Ok(())
}

#[test]
fn race_is_as_races_prints_it(rt: HostRuntime) -> Result<(), AllocError> {
    let document = race_document(rt.alloc())?;
    let is = is_printed(rt.alloc(), &document, RACE_WORDS, RACE_JSON)?;
    assert!(rt; is, "race");
    Ok(())
}
