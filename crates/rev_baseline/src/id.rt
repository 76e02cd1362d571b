//! The stable name of a finding.
ghost use Rattle.std.specs.Prelude.{◌≡◌};
ghost use Rattle.std.specs.Int.{from_be_bytes, w64};
ghost use Rattle.sha2.specs.Sha256.{sha256};
ghost use Rattle.rev_baseline.specs.Ids.{id_of, parts_of};

use serde::{Described, Serialize, Serializer};
use sha2::{Digest, Sha256};
use std::fmt;

/// The stable name of a finding, which is written as 16 hexadecimal digits. In two recordings, findings of one kind
/// have the same name where they are about the same path, and about commands with the same first outputs.
#[derive(Clone, Copy, Debug, PartialEq, Eq, PartialOrd, Ord)]
pub struct Id(pub u64);

// The digest of the kind, the path, and the names of maker and user, with a zero between each two.
fn digest_of(kind: &str, path: &[u8], maker: &[u8], user: &[u8]) -> [u8; 32]
    ensures { result ≡ sha256 (parts_of kind.now path.now maker.now user.now) }
{
    let mut hasher = Sha256::new();
    hasher.update(kind.as_bytes());
    hasher.update(b"\0");
    hasher.update(path);
    hasher.update(b"\0");
    hasher.update(maker);
    hasher.update(b"\0");
    hasher.update(user);
    hasher.finalize()
}

// The number of the first eight bytes of a digest.
fn first_of(d: &[u8; 32]) -> u64
    ensures { result ≡ from_be_bytes w64 d.now }
{
    u64::from_be_bytes([d[0], d[1], d[2], d[3], d[4], d[5], d[6], d[7]])
}

impl Id {
    /// The name of a finding of this kind about a path, of a maker and a user by the names of their first outputs.
    pub fn of(kind: &str, path: &[u8], maker: &[u8], user: &[u8]) -> Id
        ensures { result.0 ≡ id_of kind.now path.now maker.now user.now }
    {
        Id(first_of(&digest_of(kind, path, maker, user)))
    }
}

impl fmt::Display for Id {
    fn fmt<W: fmt::Write>(&self, f: &mut fmt::Formatter<W>) -> fmt::Result {
        let number = self.0;
        write!(f, "{number:016x}")
    }
}

impl Described for Id {}

impl Serialize for Id {
    fn serialize<S: Serializer>(&self, out: &mut S) -> Result<(), S::Error> {
        out.collect_str(self)
    }
}
