//! Laws of lists of paths, each the contract of a function that does nothing.
ghost use Rattle.rev_paths.specs.Mentions.{FirstMentionsAreAll, FirstMentionsAreDistinct};

/// No path stands twice among the first mentions of paths.
pub fn first_mentions_are_distinct()
    ensures { FirstMentionsAreDistinct }
{}

/// A path is among the first mentions of a list exactly where it is in the list.
pub fn first_mentions_are_all()
    ensures { FirstMentionsAreAll }
{}
