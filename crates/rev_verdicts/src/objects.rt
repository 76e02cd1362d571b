//! The objects of a certificate.
use rev_races_text::{Edge, Shown, Text};
use serde::Serialize;
use std::alloc::{AllocError, Global};

/// The first object, behind its kind and whether it is certain.
#[derive(Clone, Copy, Serialize)]
pub(crate) struct CertificateObject {
    pub(crate) certain_of_what_ran: bool,
    pub(crate) version: u64,
    pub(crate) strict: bool,
    pub(crate) commands: u64,
    pub(crate) whole: u64,
    pub(crate) assumptions: u64,
    pub(crate) trusted: u64,
    pub(crate) side_files: u64,
    pub(crate) undeclared: u64,
    pub(crate) unlisted: u64,
    pub(crate) hidden: u64,
    pub(crate) known: u64,
    pub(crate) ignored: u64,
}

/// A flag that a line of the user's file trusts.
#[derive(Clone, Copy, Serialize)]
pub(crate) struct TrustedObject<'a> {
    pub(crate) line: u64,
    pub(crate) reason: Text<'a>,
    pub(crate) user: Option<Edge<'a>>,
    pub(crate) flag: Option<&'static str>,
    pub(crate) call: Option<Shown<'a>>,
    pub(crate) program: Option<Shown<'a>>,
    pub(crate) text: Option<Shown<'a>>,
}

impl CertificateObject {
    /// Its members and its end, as bytes.
    ///
    /// # Errors
    /// [`AllocError`] only where an allocation was refused.
    pub(crate) fn members(&self, alloc: Global) -> Result<Vec<u8>, AllocError> {
        let Ok(object) = serde_json::to_vec(alloc, self) else {
            return Err(AllocError);
        };
        Vec::from_slice(alloc, object.get(1..).unwrap_or(b"}"))
    }
}
