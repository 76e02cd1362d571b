//! Stable names of findings.
use crate::edges::Sources;
use crate::others::Clash;
use crate::race::RaceFinding;
use rev_baseline::Id;
use rev_clashes::SideFile;
use rev_races::Kind;

// The word of a kind in a name. A race that the error of a failed command names is a race like any other.
fn kind_word(kind: Kind) -> &'static str {
    match kind {
        Kind::Race => "race",
        Kind::Cycle => "cycle",
        Kind::Own => "own",
    }
}

impl<'a> Sources<'a> {
    /// The bytes of the first output of an edge. They are empty where the manifest has fewer edges.
    pub fn output(&self, edge: u32) -> &'a [u8] {
        match self.edge(edge).output {
            Some(output) => output.0,
            None => b"",
        }
    }

    /// The stable name of a finding of a kind about a path, of two edges by their numbers.
    pub fn id(&self, kind: &str, path: &[u8], maker: u32, user: u32) -> Id {
        Id::of(kind, path, self.output(maker), self.output(user))
    }

    /// The same of two edges where neither comes first. The lesser of their names does, by the order of bytes.
    pub fn pair_id(&self, kind: &str, path: &[u8], one: u32, other: u32) -> Id {
        let (one, other) = (self.output(one), self.output(other));
        if one <= other {
            Id::of(kind, path, one, other)
        } else {
            Id::of(kind, path, other, one)
        }
    }

    /// The stable name of a command that stands in the way of a certificate.
    pub fn way_id(&self, edge: u32) -> Id {
        self.id("in the way", b"", edge, edge)
    }

    /// The stable name of a race, a cycle or an own path.
    pub fn race_id(&self, told: &RaceFinding<'_>) -> Id {
        self.id(
            kind_word(told.kind),
            told.path.as_bytes(),
            told.maker,
            told.user,
        )
    }

    /// The stable name of a clash of two side files.
    pub fn clash_id(&self, clash: &Clash) -> Id {
        let kind = match clash.kind {
            SideFile::Depfile => "depfile clash",
            SideFile::ResponseFile => "rspfile clash",
        };
        let path = match self.clash(clash).path {
            Some(path) => path.0,
            None => b"",
        };
        self.pair_id(kind, path, clash.first, clash.other)
    }
}
