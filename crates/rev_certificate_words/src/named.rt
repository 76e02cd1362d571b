//! By what obstacles and assumptions are named.
use rev_observation::{Command, Flag, Observation};
use rev_paths::Name;
use rev_races_text::{Edge, Shown, Sources};
use rev_scene::Scene;
use std::fmt;

/// By what obstacles and assumptions are named.
#[derive(Clone, Copy)]
pub struct Named<'a> {
    /// What answers say of edges.
    pub sources: Sources<'a>,
    /// What the commands were seen to do.
    pub observation: &'a Observation,
    /// The entries and commands that were judged.
    pub scene: &'a Scene,
    /// The targets of the recording's last build; empty where it was of the default ones.
    pub targets: &'a [Name],
    /// For each edge whether its command began.
    pub began: &'a [bool],
    /// For each edge whether Ninja found nothing to do for it.
    pub up_to_date: &'a [bool],
}

/// Who did something.
#[derive(Clone, Copy)]
pub enum Actor<'a> {
    /// The command of an edge.
    Command(Edge<'a>),
    /// Ninja itself.
    Ninja,
}

impl fmt::Display for Actor<'_> {
    fn fmt<W: fmt::Write>(&self, f: &mut fmt::Formatter<W>) -> fmt::Result {
        match self {
            Actor::Command(edge) => write!(f, "{edge}"),
            Actor::Ninja => write!(f, "Ninja"),
        }
    }
}

impl<'a> Named<'a> {
    /// The path of an entry, by the entry's number. It is empty where no entry has the number.
    pub fn path(&self, entry: u32) -> Shown<'a> {
        let paths = self.observation.entries().paths();
        let place = u64::from(entry);
        if place < paths.len() {
            Shown(paths.path(place).as_bytes())
        } else {
            Shown(b"")
        }
    }

    /// The edge of a command, by the command's number. It is None for Ninja's own acts.
    pub fn edge_of(&self, command: u32) -> Option<u32> {
        let command = self.scene.commands.get(command as usize)?;
        if (command.edge as usize) < self.sources.builds.len() {
            Some(command.edge)
        } else {
            None
        }
    }

    /// The number of the edge of a command, by the command's number. For Ninja's own acts no edge has it.
    pub fn edge_number(&self, command: u32) -> u32 {
        match self.edge_of(command) {
            Some(edge) => edge,
            None => u32::MAX,
        }
    }

    /// The number of the entry that has a path.
    pub fn entry_of(&self, path: &Name) -> Option<u32> {
        let place = self.observation.entries().paths().find(path)?;
        u32::try_from(place).ok()
    }

    /// The number of the folder of an entry, where that has one.
    pub fn folder_of(&self, entry: u32) -> Option<u32> {
        self.scene.entries.get(entry as usize)?.folder
    }

    /// Who a command is, by the command's number.
    pub fn actor(&self, command: u32) -> Actor<'a> {
        match self.edge_of(command) {
            Some(edge) => Actor::Command(self.sources.edge(edge)),
            None => Actor::Ninja,
        }
    }

    // The command of a number, as the observation has it.
    fn command(&self, command: u32) -> Option<&'a Command> {
        self.observation.commands().get(command as usize)
    }

    /// A flag of a command, by both numbers.
    pub fn flag(&self, command: u32, flag: u32) -> Option<&'a Flag> {
        self.command(command)?.flags().get(flag as usize)
    }

    /// Whether the command of an edge began.
    pub fn has_begun(&self, edge: u32) -> bool {
        self.began.get(edge as usize).copied().unwrap_or(false)
    }

    /// Whether Ninja found nothing to do for an edge.
    pub fn is_up_to_date(&self, edge: u32) -> bool {
        self.up_to_date.get(edge as usize).copied().unwrap_or(false)
    }
}
