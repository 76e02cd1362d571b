//! A file of trusted flags.
ghost use Rattle.std.specs.Prelude.{◌≡◌, [], IfOk};
ghost use Rattle.rev_trusted.specs.Trusts.{line_of as line_of_flag};

use crate::faults::{Fault, FaultKind, ReadFault};
use crate::line::{Line, is_remark};
use rev_fields::parts_at;
use rev_filters::MAX_BYTES;
use rev_observation::Flag;
use std::alloc::{AllocError, Global};

// The first line.
const HEAD: &[u8] = b"rebug-trust 1";

/// What a user trusts, line by line.
pub struct Trust {
    lines: Vec<Line>,
}

// Written, since a derived drop is proved again at each exit of each caller.
impl Drop for Trust {
    fn drop(self) {
        let Trust { lines: _lines } = self;
    }
}

// A fault at a line.
fn fault(kind: FaultKind, line: u64) -> ReadFault {
    ReadFault::Numbered(Fault { kind, line })
}

// What the lines behind the first trust.
fn lines_of(alloc: Global, texts: &[&[u8]]) -> Result<Vec<Line>, ReadFault> {
    let mut lines = Vec::new(alloc);
    for (place, text) in texts.iter().enumerate() {
        if is_remark(text) {
            continue;
        }
        let number = u64::saturating_add(place as u64, 2);
        match Line::read(alloc, text, number)? {
            Some(line) => lines.push(line)?,
            None => return Err(fault(FaultKind::Syntax, number)),
        }
    }
    Ok(lines)
}

impl Trust {
    /// No flag is trusted.
    pub fn nothing(alloc: Global) -> Trust
        ensures { result.lines.items ≡ [] }
    {
        Trust {
            lines: Vec::new(alloc),
        }
    }

    /// Reads a file of trusted flags. Its first line is `rebug-trust 1`. An empty line, and one that begins with `#`, says
    /// nothing. Each other line is `FLAG PROGRAM PATTERN REASON`, with one space between each two: a flag's word, a pattern
    /// of the program's name in which `*` stands for any bytes, and a pattern of the flag's text as one in a file of filters
    /// ([`rev_filters::read`]). The pattern `*` is of each text. The last line may lack its LF.
    ///
    /// # Errors
    /// [`ReadFault::Numbered`] with the first line that may not stand there, and with line 0 where the text has more than
    /// [`MAX_BYTES`] bytes. [`ReadFault::Memory`] only where an allocation was refused.
    pub fn read(alloc: Global, text: &[u8]) -> Result<Trust, ReadFault> {
        if text.len() > MAX_BYTES {
            return Err(fault(FaultKind::Long, 0));
        }
        let lines = parts_at(alloc, text, b'\n')?;
        let Some((head, rest)) = lines.split_first() else {
            return Err(fault(FaultKind::Syntax, 1));
        };
        if *head != HEAD {
            return Err(fault(FaultKind::Syntax, 1));
        }
        Ok(Trust {
            lines: lines_of(alloc, rest)?,
        })
    }

    /// The lines that trust, in their order.
    pub fn lines(&self) -> &[Line]
        ensures { result.now ≡ self.now.lines.items }
    {
        self.lines.as_slice()
    }

    /// Which line trusts a flag: the place of the first one among [`Trust::lines`]; none where no line does. It takes
    /// time linear in the bytes of the file times those of the flag.
    ///
    /// # Errors
    /// [`AllocError`] only where an allocation was refused.
    pub fn line_of(&self, alloc: Global, flag: &Flag) -> Result<Option<usize>, AllocError>
        ensures { IfOk result (λ place. place ≡ line_of_flag self.now.lines.items flag.now) }
    {
        for (place, line) in self.lines.iter().enumerate() {
            if line.trusts(alloc, flag)? {
                return Ok(Some(place));
            }
        }
        Ok(None)
    }
}
