//! What events meet and what points wait for.
ghost use Rattle.std.specs.Prelude.{◌≡◌, IfOk};
ghost use Rattle.rev_desk.specs.BreakKeys.{event_break_key, point_break_key};

use rev_commands::Point;
use rev_events::Event;
use rev_graph::Graph;
use rev_paths::Name;
use std::alloc::AllocError;

/// Events of one kind: of an edge, of a path, or all of them.
#[derive(PartialEq, Eq, Hash)]
pub(crate) enum BreakKey {
    Start(u32),
    Finish(u32),
    Fail(u32),
    Abort(u32),
    Clean(u32),
    Pass(u32),
    Touch(Name),
    Plan,
    Interrupt,
}

impl Drop for BreakKey {
    fn drop(self) {
        match self {
            BreakKey::Start(_part) => {}
            BreakKey::Finish(_part) => {}
            BreakKey::Fail(_part) => {}
            BreakKey::Abort(_part) => {}
            BreakKey::Clean(_part) => {}
            BreakKey::Pass(_part) => {}
            BreakKey::Touch(_part) => {}
            BreakKey::Plan => {}
            BreakKey::Interrupt => {}
        }
    }
}

/// What an event is, by its kind and its edge or path. No point waits for a resize.
pub(crate) fn event_break_key(graph: &Graph, event: &Event) -> Result<Option<BreakKey>, AllocError>
    ensures { IfOk result (λ break_key. break_key ≡ event_break_key graph.now.manifest event.now) }
{
    Ok(match event {
        Event::Plan(_) => Some(BreakKey::Plan),
        Event::Start { out, .. } => graph.producer(out).map(BreakKey::Start),
        Event::Finish { out, .. } => graph.producer(out).map(BreakKey::Finish),
        Event::Fail { out, .. } => graph.producer(out).map(BreakKey::Fail),
        Event::Abort { out, .. } => graph.producer(out).map(BreakKey::Abort),
        Event::Clean { out } => graph.producer(out).map(BreakKey::Clean),
        Event::Pass { out } => graph.producer(out).map(BreakKey::Pass),
        Event::Touch { path, .. } => Some(BreakKey::Touch(path.copy()?)),
        Event::Interrupt => Some(BreakKey::Interrupt),
        Event::Resize { .. } => None,
    })
}

/// What a point waits for: nothing where no edge has its output.
pub(crate) fn point_break_key(graph: &Graph, point: &Point) -> Result<Option<BreakKey>, AllocError>
    ensures { IfOk result (λ break_key. break_key ≡ point_break_key graph.now.manifest point.now) }
{
    Ok(match point {
        Point::Start(out) => graph.producer(out).map(BreakKey::Start),
        Point::Finish(out) => graph.producer(out).map(BreakKey::Finish),
        Point::Fail(out) => graph.producer(out).map(BreakKey::Fail),
        Point::Abort(out) => graph.producer(out).map(BreakKey::Abort),
        Point::Clean(out) => graph.producer(out).map(BreakKey::Clean),
        Point::Pass(out) => graph.producer(out).map(BreakKey::Pass),
        Point::Touch(path) => Some(BreakKey::Touch(path.copy()?)),
        Point::Plan => Some(BreakKey::Plan),
        Point::Interrupt => Some(BreakKey::Interrupt),
    })
}
