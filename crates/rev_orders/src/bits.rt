//! Sets of numbers, as bits.
use std::alloc::{AllocError, Global};

// How many numbers a word has.
const WIDTH: usize = 64;

/// Numbers below a bound.
#[derive(Drop)]
pub(crate) struct Bits {
    words: Vec<u64>,
}

// Adds the numbers of other words, of which there are not more.
fn add_words(words: &mut [u64], others: &[u64]) {
    if others.len() > words.len() {
        return;
    }
    for k in 0..others.len() {
        words[k] |= others[k];
    }
}

// Takes away the numbers that other words do not have. There are not fewer of these.
fn keep_words(words: &mut [u64], others: &[u64]) {
    if words.len() > others.len() {
        return;
    }
    for k in 0..words.len() {
        words[k] &= others[k];
    }
}

// How many numbers there are that other words have, too. There are not fewer of these.
fn common_words(words: &[u64], others: &[u64]) -> usize {
    let mut count = 0usize;
    if words.len() > others.len() {
        return count;
    }
    for k in 0..words.len() {
        count = count.wrapping_add((words[k] & others[k]).count_ones() as usize);
    }
    count
}

// Changes which numbers there are and which not.
fn invert_words(words: &mut [u64]) {
    for k in 0..words.len() {
        words[k] = !words[k];
    }
}

// Adds one to the count of each number of a word, whose numbers begin at a place.
fn count_bits(counts: &mut [usize], begin: usize, word: u64) {
    let mut rest = word;
    for _ in 0..WIDTH {
        if rest == 0 {
            return;
        }
        let number = begin.saturating_add(rest.trailing_zeros() as usize);
        if number < counts.len() {
            counts[number] = counts[number].saturating_add(1);
        }
        rest &= rest.wrapping_sub(1);
    }
}

impl Bits {
    /// No number, of those below a bound.
    ///
    /// # Errors
    /// [`AllocError`] only where an allocation was refused.
    pub(crate) fn below(alloc: Global, bound: usize) -> Result<Bits, AllocError> {
        Ok(Bits {
            words: vec![in alloc; 0; (bound / WIDTH).saturating_add(1)]?,
        })
    }

    /// Adds a number. One at the bound or above it changes nothing that is asked for.
    pub(crate) fn add(&mut self, number: usize) {
        let word = number / WIDTH;
        if word < self.words.len() {
            self.words[word] |= 1 << (number % WIDTH);
        }
    }

    /// Adds the numbers of another set, whose bound is not higher.
    pub(crate) fn add_all(&mut self, other: &Bits) {
        add_words(&mut self.words, &other.words);
    }

    /// Takes away the numbers that another set does not have, whose bound is not lower.
    pub(crate) fn keep(&mut self, other: &Bits) {
        keep_words(&mut self.words, &other.words);
    }

    /// How many numbers another set has, too, whose bound is not lower.
    pub(crate) fn common(&self, other: &Bits) -> usize {
        common_words(&self.words, &other.words)
    }

    /// Has exactly the numbers below a bound that it does not have.
    pub(crate) fn invert(&mut self, bound: usize) {
        invert_words(&mut self.words);
        let last = bound / WIDTH;
        if last < self.words.len() {
            self.words[last] &= (1u64 << (bound % WIDTH)).wrapping_sub(1);
        }
    }

    /// Adds one to the count of each number that it has.
    pub(crate) fn count_into(&self, counts: &mut [usize]) {
        let mut begin = 0usize;
        for word in &self.words {
            count_bits(counts, begin, *word);
            begin = begin.saturating_add(WIDTH);
        }
    }

    /// How many numbers it has.
    pub(crate) fn len(&self) -> usize {
        common_words(&self.words, &self.words)
    }
}
