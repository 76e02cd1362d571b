//! What is kept beside each kept event.
ghost use Rattle.std.specs.Prelude.{◌≡◌, length};
ghost use Rattle.std.specs.Option.{option_copied};
ghost use Rattle.rev_history.specs.Steps.{step_beside};

use indexmap::IndexMap;
use rev_accesses::Places;
use rev_cells::Value;
use rev_events::Event;

/// What stands beside a kept event: the places of the cells that the event reads and writes in the table of cells, and
/// what those that it writes held before it, in their order. No step stands beside an event that is not kept: a redo
/// makes one.
pub(crate) struct Step {
    pub(crate) places: Places,
    pub(crate) replaced: Vec<Value>,
}

impl Drop for Step {
    fn drop(self) {
        let Step {
            places: _places,
            replaced: _replaced,
        } = self;
    }
}

/// The step that stands beside the event of a number, where one does.
pub(crate) fn step_of<'a>(
    accepted: &IndexMap<u32, Event>,
    steps: &'a [Option<Step>],
    number: u32,
) -> Option<&'a Step>
    requires { length steps.now ≡ length accepted.now.entries }
    ensures { option_copied result ≡ step_beside number accepted.now.entries steps.now }
{
    let Some(index) = accepted.get_index_of(&number) else {
        return None;
    };
    match &steps[index] {
        Some(step) => Some(step),
        None => None,
    }
}
