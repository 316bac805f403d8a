// The slots that a call is lent: bytes, numbers or clause records.
ghost use Rattle.std.specs.Prelude.{◌≤◌};

use crate::words::number;
use clause::ClauseRecord;
use std::fmt;
use std::fmt::{Display, Formatter};

pub trait Slot: Copy + Default + PartialEq {
    // What a slot holds before a call, so that one that the call leaves alone shows.
    const MARK: Self;

    // Writes a slot as an item of a list.
    fn item<W: fmt::Write>(self, f: &mut Formatter<W>) -> fmt::Result;
}

impl Slot for u8 {
    const MARK: u8 = 170;

    fn item<W: fmt::Write>(self, f: &mut Formatter<W>) -> fmt::Result {
        write!(f, "{self}")
    }
}

impl Slot for u16 {
    const MARK: u16 = 43690;

    fn item<W: fmt::Write>(self, f: &mut Formatter<W>) -> fmt::Result {
        write!(f, "{self}")
    }
}

impl Slot for ClauseRecord {
    const MARK: ClauseRecord = ClauseRecord {
        name_start: 43690,
        name_end: 43690,
        entry: 43690,
        parenthesized: true,
        content_start: 43690,
        content_end: 43690,
        preceded: true,
        trailing: true,
    };

    // The eight fields, in the order of document 01.
    fn item<W: fmt::Write>(self, f: &mut Formatter<W>) -> fmt::Result {
        let ClauseRecord {
            name_start,
            name_end,
            entry,
            parenthesized,
            content_start,
            content_end,
            preceded,
            trailing,
        } = self;
        let parenthesized = u8::from(parenthesized);
        let preceded = u8::from(preceded);
        let trailing = u8::from(trailing);
        write!(f, "{name_start}/{name_end}/{entry}/{parenthesized}")?;
        write!(f, "/{content_start}/{content_end}/{preceded}/{trailing}")
    }
}

// Slots as an answer lists them: separated by commas up to the last that is not zero, then how many zeros follow.
#[derive(Clone, Copy)]
pub struct Slots<'w, T>(pub &'w [T]);

impl<T: Slot> Display for Slots<'_, T> {
    fn fmt<W: fmt::Write>(&self, f: &mut Formatter<W>) -> fmt::Result {
        let slots = self.0;
        // `run_start` is of bytes and a set, these are slots of any kind
        let used = match slots.iter().rposition(|slot| *slot != T::default()) {
            Some(last) => last + 1,
            None => 0,
        };
        for (i, slot) in slots[..used].iter().enumerate() {
            if i > 0 {
                f.write_char(',')?;
            }
            slot.item(f)?;
        }
        write!(f, "+{}", slots.len() - used)
    }
}

// How many slots of a buffer of N a request lends.
#[derive(Clone, Copy)]
pub struct Count<const N: usize> {
    n: usize,
    ghost within: { n ≤ N },
}

impl<const N: usize> Count<N> {
    pub fn parse(word: &[u8]) -> Option<Count<N>> {
        Some(Count {
            n: number(word, N)?,
        })
    }

    pub fn get(self) -> usize
        ensures { result ≤ N }
    {
        self.n
    }

    pub fn of<T>(self, buffer: &[T; N]) -> &[T] {
        &buffer[..self.n]
    }

    // The slots, each with its mark.
    pub fn lend<T: Slot>(self, buffer: &mut [T; N]) -> &mut [T] {
        let slots = &mut buffer[..self.n];
        // `fill` asks that a clone can't fail, which is not known of any T.
        for slot in slots.iter_mut() {
            *slot = T::MARK;
        }
        slots
    }
}
