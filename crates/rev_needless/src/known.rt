//! What is known of a build.

/// What is known of a build whose orders are judged. Its nodes are commands and names (phony edges), each by its
/// number.
#[derive(Drop)]
pub struct Known {
    /// For each node the nodes that it waits for directly. Each place of a list is a declared order.
    pub steps: Vec<Vec<u32>>,
    /// A mark for each node: whether it is a command. A node without a mark is none.
    pub commands: Vec<bool>,
    /// The nodes that the build is of.
    pub targets: Vec<u32>,
    /// For each command the commands that have to stay before it, where it waits for them. It would conflict with one
    /// of them without an order, or one of them makes what it needs. Of two commands that would conflict, the later one
    /// has the earlier one in its list.
    pub conflicts: Vec<Vec<u32>>,
    /// The commands that were not seen whole.
    pub unseen: Vec<u32>,
}
