//! What a byte of a depfile says.
ghost use Rattle.std.specs.Prelude.{◌≡◌};
ghost use Rattle.rev_depfile.specs.Lines.{byte_of, is_blank, is_colon, is_line_end};

// What a byte is once the bytes beside it are known.
#[derive(Clone, Copy)]
pub(crate) enum Mark {
    // A byte of a word.
    Byte(u8),
    // A colon before the end of a word, which may separate targets from prerequisites.
    Colon,
    Blank,
    LineEnd,
}

// What a byte behind backslashes is, and how many of them are bytes of a word.
#[derive(Clone, Copy)]
pub(crate) struct Reading {
    pub(crate) kept: usize,
    pub(crate) mark: Mark,
}

// A mark, and the offset in the text of the first byte that it is read from.
#[derive(Clone, Copy)]
pub(crate) struct Sign {
    pub(crate) at: usize,
    pub(crate) mark: Mark,
}

impl Sign {
    pub(crate) fn is_line_end(&self) -> bool
        ensures { result ≡ is_line_end self.now }
    {
        matches!(self.mark, Mark::LineEnd)
    }

    pub(crate) fn is_blank(&self) -> bool
        ensures { result ≡ is_blank self.now }
    {
        matches!(self.mark, Mark::Blank)
    }

    pub(crate) fn is_colon(&self) -> bool
        ensures { result ≡ is_colon self.now }
    {
        matches!(self.mark, Mark::Colon)
    }

    // The byte that the sign is in a word, where a colon separates nothing.
    pub(crate) fn byte(&self) -> u8
        ensures { result ≡ byte_of self.now }
    {
        match self.mark {
            Mark::Byte(byte) => byte,
            Mark::Colon => b':',
            Mark::Blank => b' ',
            Mark::LineEnd => b'\n',
        }
    }
}
