// The names of a book without their blanks, made once for many lines, and all of them held against the letters of one line.
ghost use Rattle.std.specs.Prelude.{◌≡◌, ◌≤◌, ◌||◌, ◌&&◌, ℕ, List, [], length, take, get_or, leb, false};
ghost use Rattle.ascii.specs.Ascii.{exactly};
ghost use Rattle.rulebook.specs.Book.{book_of};
ghost use Rattle.directive.specs.Steps.{RunAlike, Counted};
ghost use Rattle.directive.specs.Compacts.{Compacts, IfChecked, Agreed, Alone, has_bit};

use crate::candidate::Candidate;
use crate::foreseen::{PLACES, Places, Tally, run_alike};
use ascii::class::{fold, is_space};
use refusal::Refusal;
use rulebook::{CheckedBook, DirectiveBook};

// The most bytes of a name.
const LONGEST: usize = 64;

// The most names.
const MOST: usize = 255;

// A name without its blanks.
#[derive(Clone, Copy)]
pub struct CompactName {
    // with their case folded, and what is behind them is not read
    pub letters: [u8; LONGEST],
    pub len: usize,
    // how many of its letters are those of the name before it
    pub shared: usize,
    // bit n is 1 if a blank stands behind the first n letters
    pub blanks: u64,
}

// How many bytes two texts begin with alike, if these many are known to be. Mostly the next one differs; where it does not, eight are asked at once.
fn agreed(a: &[u8], b: &[u8], known: usize) -> usize
    requires { (known ≤ length a.now) × (known ≤ length b.now) }
    ensures { RunAlike exactly a.now b.now known → Agreed a.now b.now result }
{
    let most = a.len().min(b.len());
    if known == most || a[known] != b[known] {
        return known;
    }
    let mut run = known + run_alike::<false>(&a[known..], &b[known..]);
    while run < most && a[run] == b[run] {
        run += 1;
    }
    run
}

// The places of a number of 64 bits up to one.
fn bits_to(blanks: u64, place: usize) -> u64
    ensures { (n : ℕ) → has_bit result n ≡ (has_bit blanks n && leb n place) }
{
    blanks & (u64::MAX >> (63 - place.min(63)))
}

// Marks the places of a number of 64 bits.
fn mark_bits(bits: u64, heads: &mut [bool; PLACES])
    ensures { (n : ℕ) → get_or heads.new n false ≡ (get_or heads.old n false || has_bit bits n) }
{
    for place in 0..64 {
        heads[place] = heads[place] | ((bits >> place) % 2 == 1);
    }
}

impl CompactName {
    fn none() -> CompactName
        ensures { Alone [] result }
    {
        CompactName {
            letters: [0; LONGEST],
            len: 0,
            shared: 0,
            blanks: 0,
        }
    }

    // What a name says alone.
    fn of(name: &[u8]) -> CompactName
        requires { length name.now ≤ 64 }
        ensures { Alone name.now result }
    {
        let mut letters = [0; LONGEST];
        let mut len = 0;
        let mut blanks = 0;
        for x in name {
            if is_space(*x) {
                blanks |= u64::from(*x == b' ') << len;
                continue;
            }
            letters[len] = fold(*x);
            len += 1;
        }
        CompactName {
            letters,
            len,
            shared: 0,
            blanks,
        }
    }

    fn as_slice(&self) -> &[u8]
        requires { self.now.len ≤ length self.now.letters }
        ensures { result.now ≡ take self.now.len self.now.letters }
    {
        &self.letters[..self.len]
    }

    // How many letters it and a text begin with alike, by how many the name before it does.
    fn run_behind(&self, run: usize, text: &[u8]) -> usize
        requires { (self.now.shared ≤ self.now.len) × (self.now.len ≤ length self.now.letters) × (run ≤ length text.now) }
        ensures { (before : List ℕ) → Agreed (take self.now.len self.now.letters) before self.now.shared → Agreed before text.now run
            → Agreed (take self.now.len self.now.letters) text.now result }
    {
        if self.shared < run {
            self.shared
        } else if run < self.shared {
            run
        } else {
            agreed(self.as_slice(), text, run)
        }
    }
}

// Those of a book, in order.
#[derive(Clone, Copy)]
pub struct CompactNames {
    pub names: [CompactName; MOST],
}

impl CompactNames {
    pub fn of(book: &DirectiveBook) -> CompactNames
        ensures { Compacts (book_of book.now.bytes.now) result }
    {
        let mut names = [CompactName::none(); MOST];
        let mut number = 0;
        let mut before = CompactName::none();
        for name in book.directive_names() {
            let mut next = CompactName::of(name);
            next.shared = agreed(next.as_slice(), before.as_slice(), 0);
            names[number] = next;
            before = next;
            number += 1;
        }
        CompactNames { names }
    }

    // For many lines under a book as its check left it: none where no line asks for them, as blanks in names are not optional.
    pub fn for_lines(book: &Result<CheckedBook, Refusal>) -> Option<CompactNames>
        ensures { IfChecked book.now result }
    {
        match book {
            Ok(book) if book.header.optional_blanks => Some(CompactNames::of(
                &book.directive_book(),
            )),
            _ => None,
        }
    }

    // What they say of letters.
    pub fn places(&self, book: &DirectiveBook, letters: &[u8]) -> Places
        requires fits { length letters.now ≤ 128 }
        requires made { Compacts (book_of book.now.bytes.now) self.now }
        ensures { Counted (book_of book.now.bytes.now) letters.now result.heads result.ends }
    {
        // Both sides are folded before, so that bytes are compared as they are.
        let folded = Candidate::folded(letters);
        let known = folded.as_slice();
        let mut heads = [false; PLACES];
        let mut ends = [Tally::Zero; PLACES];
        let mut run = 0;
        let mut blanks = 0;
        for number in 0..book.header.directives.count {
            let name = &self.names[number];
            run = name.run_behind(run, known);
            blanks = blanks | bits_to(name.blanks, run);
            if run == name.len {
                heads[run] = true;
                ends[run] = ends[run].and(number as u8);
            }
        }
        mark_bits(blanks, &mut heads);
        Places { heads, ends }
    }
}
