//! Why a desk does not come back as it should.
ghost use Rattle.std.specs.Prelude.{◌≡◌};
ghost use Rattle.rev_workers.specs.Codes.{number_of};

use rev_desk::Desk;

/// Why a desk does not come back as it should.
#[derive(Clone, Copy, Debug, PartialEq, Eq)]
pub enum CloseCode {
    /// The lanes given are not one of each number.
    LaneMissing,
    /// A lane's list is not its part of the journal.
    LaneMismatch,
    /// A lane could not say all that it was to say.
    LaneStopped,
}

impl CloseCode {
    /// The fault's number: 110 for `LaneMissing`, 111 for `LaneMismatch`, 112 for `LaneStopped`.
    pub fn number(self) -> u16
        ensures { result ≡ number_of self }
    {
        match self {
            CloseCode::LaneMissing => 110,
            CloseCode::LaneMismatch => 111,
            CloseCode::LaneStopped => 112,
        }
    }
}

/// Why a desk does not come back as it should, with the least lane that this is true for, and the desk.
pub struct CloseFault {
    pub code: CloseCode,
    pub lane: u32,
    pub desk: Desk,
}

impl CloseFault {
    /// The desk, to go on with or to look at.
    pub fn into_desk(self) -> Desk
        ensures { result ≡ self.desk }
    {
        let CloseFault {
            code: _code,
            lane: _lane,
            desk,
        } = self;
        desk
    }
}

impl Drop for CloseFault {
    fn drop(self) {
        let CloseFault {
            code: _code,
            lane: _lane,
            desk: _desk,
        } = self;
    }
}
