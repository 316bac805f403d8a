// The candidate: the words of a name so far, with one blank between them.
ghost use Rattle.std.specs.Prelude.{◌≡◌, List, [], ◌++◌, ◌≤◌, ℕ, true, length, take, map, is_err};
ghost use Rattle.ascii.specs.Ascii.{fold as folded};
ghost use Rattle.directive.specs.Name.{compact, extended};
ghost use Rattle.directive.specs.Steps.{fitting, kept_if};

use ascii::class::{fold, is_space};
use std::marker::Model;

// The most bytes that a candidate has. A longer one is no name and begins none: a name has at most 64, and at least every second byte of a candidate is of a
// word.
pub const ROOM: usize = 128;

// A word more would not fit.
#[derive(Clone, Copy, Debug, PartialEq, Eq)]
pub struct Full;

// A buffer with its length, for there is no heap.
#[derive(Drop)]
pub struct Candidate {
    bytes: [u8; ROOM],
    len: usize,
}

impl Model for Candidate {
    ghost Value = { List ℕ };

    ghost view = { λ c. take c.len c.bytes };

    ghost invariant = { λ c. c.len ≤ 128 };
}

impl Candidate {
    pub fn new() -> Candidate
        ensures { result ≡ [] }
    {
        Candidate {
            bytes: [0; ROOM],
            len: 0,
        }
    }

    pub fn as_slice(&self) -> &[u8]
        ensures value { result.now ≡ self.now }
        ensures fits { length self.now ≤ 128 }
    {
        &self.bytes[..self.len]
    }

    // Some bytes more, if they fit.
    pub fn push(&mut self, more: &[u8]) -> Result<(), Full>
        ensures kept { kept_if result self.new ≡ fitting (self.old ++ more.now) }
        ensures unchanged { is_err result ≡ true → self.new ≡ self.old }
    {
        if more.len() > ROOM - self.len {
            return Err(Full);
        }
        let end = self.len + more.len();
        self.bytes[self.len..end].copy_from_slice(more);
        self.len = end;
        Ok(())
    }

    // One word more, behind a blank if it is not the first. If it does not fit, the candidate is not to be read.
    pub fn push_word(&mut self, word: &[u8]) -> Result<(), Full>
        ensures { kept_if result self.new ≡ fitting (extended self.old word.now) }
    {
        if self.len != 0 {
            self.push(b" ")?;
        }
        self.push(word)
    }

    // The same without its blanks.
    pub fn without_blanks(&self) -> Candidate
        ensures { result ≡ compact self.now }
    {
        let mut bytes = [0; ROOM];
        let mut len = 0;
        for b in self.as_slice() {
            if is_space(*b) {
                continue;
            }
            bytes[len] = *b;
            len += 1;
        }
        Candidate { bytes, len }
    }

    // Letters with their case folded.
    pub fn folded(letters: &[u8]) -> Candidate
        requires { length letters.now ≤ 128 }
        ensures { result ≡ map folded letters.now }
    {
        let mut bytes = [0; ROOM];
        for i in 0..letters.len() {
            bytes[i] = fold(letters[i]);
        }
        Candidate {
            bytes,
            len: letters.len(),
        }
    }
}
