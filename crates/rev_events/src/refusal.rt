//! Why an event or a command is refused.
ghost use Rattle.std.specs.Prelude.{◌≡◌, ◌∷◌, []};
ghost use Rattle.rev_events.specs.Refusal.{code_of, first_number, second_number};

/// Why an event or a command is refused. Edges are named by their numbers; positions count from 0.
#[derive(Clone, Copy, Debug, PartialEq, Eq)]
pub enum Refusal {
    /// An edge runs, so nothing is planned. It carries the least such edge.
    StillRunning(u32),
    /// A target stands on no build line. It carries the position of the first such target.
    UnknownTarget(u64),
    /// An input is missing and nothing produces it. It carries the position of the first such input of the least such
    /// edge that is needed, and that edge.
    MissingInput(u64, u32),
    /// An edge that is needed reaches itself through its inputs. It carries the least such edge.
    DepsCycle(u32),
    /// No edge has the output.
    NoSuchEdge,
    /// The edge is phony, and has no command.
    Phony,
    /// The edge is wanted and not phony, so its command has to run.
    NotPhony,
    /// The build was interrupted, so no command starts.
    Halted,
    /// The build was not interrupted, so no command is stopped.
    NotHalted,
    /// The build was interrupted already.
    AlreadyHalted,
    /// The edge is not wanted; for a pass, it is neither wanted nor waits for others.
    NotWanted,
    /// The command of the edge does not run.
    NotRunning,
    /// An edge that produces an input is not settled. It carries the position of the first such input.
    Blocked(u64),
    /// The edge has no reason to run.
    NotDirty,
    /// The edge has a reason to run. It carries the kind of the first one.
    Dirty(u16),
    /// There are fewer jobs.
    NoSuchJob,
    /// The job runs another command. It carries the edge of that command.
    JobBusy(u32),
    /// A slot is named and the edge has no pool with slots, or it has one and no slot is named, or the pool has fewer
    /// slots at present.
    PoolSlot,
    /// The slot is taken. It carries the edge that has it.
    SlotBusy(u32),
    /// There is not one stamp for each output. It carries the number of outputs.
    WrongOutputs(u64),
    /// The files that the command read are listed, and the edge keeps no list.
    UnexpectedDepfile,
    /// The depfile has a fault. It carries the fault's number and its offset in the depfile.
    Depfile(u16, u64),
    /// A slot is held that the pool would lose. It carries the least such slot and the edge that has it.
    DepthInUse(u32, u32),
    /// The manifest has no such pool, or its present depth or the asked one is not from 1 to 1,024.
    BadResize,
    /// No event was accepted under the number.
    NoSuchEvent,
    /// The event is not kept, so it cannot be undone.
    NotKept,
    /// The event of a later kept number conflicts with the one that is to be undone. It carries the least such number.
    DependedOn(u32),
    /// The event is kept, so it cannot be redone.
    AlreadyKept,
    /// The event is refused in the present state. It carries the number of that refusal, and its first number
    /// where it has one.
    NotNow { refusal: u16, first: Option<u64> },
    /// The event of a kept number above the one that is to be redone conflicts with the footprint which the
    /// event has in the present state. It carries the least such number.
    Overtaken(u32),
    /// No event is kept.
    NothingKept,
    /// A break point was met, so no event happens until the next `continue`.
    Paused,
    /// No break of this number stands.
    NoSuchBreak,
}

impl Refusal {
    /// The number of the refusal.
    pub fn code(self) -> u16
        ensures { result ≡ code_of self }
    {
        match self {
            Refusal::StillRunning(_) => 50,
            Refusal::UnknownTarget(_) => 51,
            Refusal::MissingInput(_, _) => 52,
            Refusal::DepsCycle(_) => 53,
            Refusal::NoSuchEdge => 60,
            Refusal::Phony => 61,
            Refusal::NotPhony => 62,
            Refusal::Halted => 63,
            Refusal::NotHalted => 64,
            Refusal::AlreadyHalted => 65,
            Refusal::NotWanted => 66,
            Refusal::NotRunning => 67,
            Refusal::Blocked(_) => 68,
            Refusal::NotDirty => 69,
            Refusal::Dirty(_) => 70,
            Refusal::NoSuchJob => 71,
            Refusal::JobBusy(_) => 72,
            Refusal::PoolSlot => 73,
            Refusal::SlotBusy(_) => 74,
            Refusal::WrongOutputs(_) => 75,
            Refusal::UnexpectedDepfile => 76,
            Refusal::Depfile(_, _) => 77,
            Refusal::DepthInUse(_, _) => 78,
            Refusal::BadResize => 79,
            Refusal::NoSuchEvent => 80,
            Refusal::NotKept => 81,
            Refusal::DependedOn(_) => 82,
            Refusal::AlreadyKept => 83,
            Refusal::NotNow { .. } => 84,
            Refusal::Overtaken(_) => 85,
            Refusal::NothingKept => 86,
            Refusal::Paused => 92,
            Refusal::NoSuchBreak => 93,
        }
    }

    /// The numbers that the refusal carries, in their order.
    pub fn numbers(self) -> [Option<u64>; 2]
        ensures { result ≡ first_number self ∷ second_number self ∷ [] }
    {
        match self {
            Refusal::StillRunning(edge)
            | Refusal::DepsCycle(edge)
            | Refusal::JobBusy(edge)
            | Refusal::SlotBusy(edge) => [Some(u64::from(edge)), None],
            Refusal::DependedOn(number) | Refusal::Overtaken(number) => [
                Some(u64::from(number)),
                None,
            ],
            Refusal::UnknownTarget(at) | Refusal::Blocked(at) => [Some(at), None],
            Refusal::WrongOutputs(count) => [Some(count), None],
            Refusal::Dirty(kind) => [Some(u64::from(kind)), None],
            Refusal::MissingInput(at, edge) => [Some(at), Some(u64::from(edge))],
            Refusal::Depfile(fault, at) => [Some(u64::from(fault)), Some(at)],
            Refusal::DepthInUse(slot, edge) => [Some(u64::from(slot)), Some(u64::from(edge))],
            Refusal::NotNow { refusal, first } => [Some(u64::from(refusal)), first],
            _ => [None, None],
        }
    }
}
