//! Marks of nodes and of places.
ghost use Rattle.std.specs.Prelude.{◌≡◌, ◌&&◌, false, slice_index_or};
ghost use Rattle.std.specs.List.{list_all};
ghost use Rattle.rev_ranks.specs.Sets.{is_marked};
ghost use Rattle.rev_needless.specs.Staying.{each_command, implies as implies_bool};

/// The mark at a place; none after the last one.
pub(crate) fn mark_at(marks: &[bool], place: usize) -> bool
    ensures { result ≡ slice_index_or marks.now place false }
{
    match marks.get(place) {
        Some(mark) => *mark,
        None => false,
    }
}

/// Whether the one implies the other.
pub(crate) fn implies(one: bool, other: bool) -> bool
    ensures { result ≡ implies_bool one other }
{
    !one || other
}

/// Whether four facts are true.
pub(crate) fn are_all(one: bool, two: bool, three: bool, four: bool) -> bool
    ensures { result ≡ (one && (two && (three && four))) }
{
    one && two && three && four
}

// Whether a node that has a mark before has one after.
fn is_still_marked(before: &[bool], after: &[bool], node: usize) -> bool
    ensures { result ≡ implies_bool (is_marked before.now node) (is_marked after.now node) }
{
    implies(mark_at(before, node), mark_at(after, node))
}

/// Whether each of some nodes that has a mark before has one after.
pub(crate) fn are_still_marked(nodes: &[u32], before: &[bool], after: &[bool]) -> bool
    ensures { result ≡ list_all (λ n. implies_bool (is_marked before.now n) (is_marked after.now n)) nodes.now }
{
    nodes
        .iter()
        .all(|node| is_still_marked(before, after, *node as usize))
}

/// Whether each of some nodes has a mark.
pub(crate) fn are_marked(nodes: &[u32], marks: &[bool]) -> bool
    ensures { result ≡ list_all (is_marked marks.now) nodes.now }
{
    nodes.iter().all(|node| mark_at(marks, *node as usize))
}

// Whether a node that is a command, and has a mark before, has one after.
fn command_still_marked(commands: &[bool], before: &[bool], after: &[bool], node: usize) -> bool
    ensures { result ≡ implies_bool (is_marked commands.now node)
        (implies_bool (is_marked before.now node) (is_marked after.now node)) }
{
    implies(
        mark_at(commands, node),
        is_still_marked(before, after, node),
    )
}

/// Whether each command that has a mark before has one after.
pub(crate) fn commands_still_marked(commands: &[bool], before: &[bool], after: &[bool]) -> bool
    ensures { result ≡ each_command commands.now (λ n. implies_bool (is_marked before.now n) (is_marked after.now n)) }
{
    for node in 0..commands.len() {
        let stays = command_still_marked(commands, before, after, node);
        if !stays {
            return false;
        }
    }
    true
}
