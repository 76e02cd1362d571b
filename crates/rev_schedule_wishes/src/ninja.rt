//! Which Ninja ran a build, by the file `ninja` of its recording.
use rev_fields::{LineFault, number, read_fields};
use std::alloc::{AllocError, Global};

/// In which order Ninja starts the edges that are ready.
#[derive(Clone, Copy, Debug, PartialEq, Eq)]
pub enum Order {
    /// By the numbers of the edges, as up to Ninja 1.11.
    Numbers,
    /// By the weights of the critical path, as from Ninja 1.12 on.
    CriticalPath,
}

/// What the file `ninja` of a recording says.
pub struct Ninja {
    /// The version, as Ninja prints it; nothing where it is not known.
    pub version: Vec<u8>,
    /// In which order it starts edges: by the critical path where the version is not known.
    pub order: Order,
    /// How many jobs it was given; `None` where it was given no number, or 0, which is as many as can run.
    pub jobs: Option<u32>,
}

// Written, since a derived drop is proved again at each exit of each caller.
impl Drop for Ninja {
    fn drop(self) {
        let Ninja {
            version: _version,
            order: _order,
            jobs: _jobs,
        } = self;
    }
}

// The fields of a line; none where it is not one of fields.
fn fields_of(alloc: Global, line: &[u8]) -> Result<Vec<Vec<u8>>, AllocError> {
    match read_fields(alloc, line) {
        Ok(fields) => Ok(fields),
        Err(LineFault::Memory) => Err(AllocError),
        Err(_) => Ok(Vec::new(alloc)),
    }
}

// The order of a version, as 1.11.1.
fn order_of(version: &[u8]) -> Order {
    let mut parts = version.split(|byte| *byte == b'.');
    let major = parts.next().and_then(|part| number(part).ok());
    let minor = parts.next().and_then(|part| number(part).ok());
    match (major, minor) {
        (Some(1), Some(minor)) if minor < 12 => Order::Numbers,
        (Some(0), _) => Order::Numbers,
        _ => Order::CriticalPath,
    }
}

// The order of the Ninjas that write a build log of this version: the sixth is that of 1.12.
fn order_of_log(version: &[u8]) -> Order {
    match number(version) {
        Ok(version) if version < 6 => Order::Numbers,
        _ => Order::CriticalPath,
    }
}

// How many jobs the words give: the last `-j`.
fn jobs_given(words: &[Vec<u8>]) -> Option<u32> {
    let mut jobs = None;
    let mut is_next = false;
    for word in words {
        let word = word.as_slice();
        if is_next {
            jobs = number(word).ok();
            is_next = false;
        } else if word == b"-j".as_slice() {
            is_next = true;
        } else if let Some(digits) = word.strip_prefix(b"-j") {
            jobs = number(digits).ok();
        }
    }
    match jobs {
        Some(0) => None,
        jobs => jobs,
    }
}

// Notes what a line says.
fn note(alloc: Global, ninja: &mut Ninja, line: &[u8]) -> Result<(), AllocError> {
    let fields = fields_of(alloc, line)?;
    let Some((word, rest)) = fields.split_first() else {
        return Ok(());
    };
    match word.as_slice() {
        b"version" => {
            if let Some(version) = rest.first() {
                ninja.version = Vec::from_slice(alloc, version)?;
                ninja.order = order_of(version);
            }
        }
        b"logs" => {
            if let Some(version) = rest.first() {
                ninja.order = order_of_log(version);
            }
        }
        b"words" => ninja.jobs = jobs_given(rest),
        _ => {}
    }
    Ok(())
}

/// What the bytes of the file `ninja` say. Lines of other forms say nothing.
///
/// # Errors
/// [`AllocError`] only where an allocation was refused.
pub fn ninja_in(alloc: Global, bytes: &[u8]) -> Result<Ninja, AllocError> {
    let mut ninja = Ninja {
        version: Vec::new(alloc),
        order: Order::CriticalPath,
        jobs: None,
    };
    for line in bytes.split(|byte| *byte == b'\n') {
        note(alloc, &mut ninja, line)?;
    }
    Ok(ninja)
}
