//! The numbers in a script's word.
ghost use Rattle.std.specs.Prelude.{◌≡◌, bytes_eq};
ghost use Rattle.std.specs.Cmp.{partial_equiv_from_equiv};
ghost use Rattle.std.specs.Cmp.Lexicographic.{nat_list_eq_equiv};
ghost use Rattle.rev_fields.specs.Faults.{Answers, each_of};
ghost use Rattle.rev_fields.specs.Parts.{vectors_of};
ghost use Rattle.rev_trace.specs.Commands.{short};

use rev_fields::{LineFault, number};
use std::alloc::Global;
use std::marker::Model;

/// Numbers in a given order; a number may occur more than once.
#[derive(Debug)]
pub struct Numbers {
    items: Vec<u32>,
}

impl Drop for Numbers {
    fn drop(self) {
        let Numbers { items: _items } = self;
    }
}

impl Model for Numbers {
    ghost use Rattle.std.specs.Prelude.{List, ℕ};

    ghost Value = { List ℕ };

    ghost view = { λ n. n.items.items };
}

impl Numbers {
    /// The numbers of a vector, whose memory it takes over.
    pub fn new(items: Vec<u32>) -> Numbers
        ensures { result ≡ items.items }
    {
        Numbers { items }
    }

    /// The numbers in their order.
    pub fn as_slice(&self) -> &[u32]
        ensures { result.now ≡ self.now }
    {
        self.items.as_slice()
    }
}

impl PartialEq for Numbers {
    ghost eq = { bytes_eq };

    ghost laws = { partial_equiv_from_equiv nat_list_eq_equiv };

    fn eq(&self, other: &Numbers) -> bool {
        self.items == other.items
    }
}

impl Eq for Numbers {
    ghost laws = { nat_list_eq_equiv };
}

/// The numbers that these texts spell.
pub(crate) fn each_number(alloc: Global, texts: &[Vec<u8>]) -> Result<Vec<u32>, LineFault>
    ensures { Answers result (λ numbers. numbers.items) (each_of short (vectors_of texts.now)) }
{
    let mut numbers = Vec::with_capacity(alloc, texts.len())?;
    for text in texts {
        let one = number(text)?;
        numbers.push(one)?;
    }
    Ok(numbers)
}
