// The names of a book without their blanks, held once for a line against a candidate and all that may follow it.
ghost use Rattle.std.specs.Prelude.{◌≡◌, ◌+◌, ◌≤◌, true, false, length, get_or};
ghost use Rattle.std.specs.Option.{option_copied};
ghost use Rattle.ascii.specs.Text.{comparing};
ghost use Rattle.rulebook.specs.Book.{book_of};
ghost use Rattle.directive.specs.Name.{compact};
ghost use Rattle.directive.specs.Steps.{Counted, RunAlike, one_more, only_one, Extended, HeadsMarked, EndTold};
ghost use Rattle.directive.specs.Kept.{Foretells, Passes};
ghost use Rattle.directive.specs.Compacts.{IfCompacts};

use crate::alike::{eight_folded, eight_same};
use crate::candidate::Candidate;
use crate::compacts::CompactNames;
use ascii::class::is_space;
use ascii::sets::Word;
use ascii::{begins_at, run_end, same_byte};
use lexer::trivia::skip;
use rulebook::DirectiveBook;

// The places of letters, of which there are as many as a candidate has room for: before each, and behind the last.
pub(crate) const PLACES: usize = 129;

// How many names end at a place: none, one, by the number of its entry, or more.
#[derive(Clone, Copy)]
pub enum Tally {
    Zero,
    One(u8),
    Many,
}

impl Tally {
    pub(crate) fn and(self, number: u8) -> Tally
        ensures { result ≡ one_more self number }
    {
        match self {
            Tally::Zero => Tally::One(number),
            _ => Tally::Many,
        }
    }

    fn only(self) -> Option<usize>
        ensures { result ≡ only_one self }
    {
        match self {
            Tally::One(number) => Some(usize::from(number)),
            _ => None,
        }
    }
}

// Of each number of letters: whether some name has just these, or has them before one of its blanks, and which names have just these.
#[derive(Drop)]
pub struct Places {
    pub heads: [bool; PLACES],
    pub ends: [Tally; PLACES],
}

// The letters of a candidate and of the words behind it, as a text without blanks. Of each beginning of it, by the number of its bytes: whether some name has
// the same letters, or has them before one of its blanks, and which names have just these.
#[derive(Drop)]
pub struct Foreseen {
    pub letters: Candidate,
    // the letters of the candidate itself
    pub reached: usize,
    pub heads: [bool; PLACES],
    pub ends: [Tally; PLACES],
}

// Adds the words that follow in a text, as far as trivia and room allow.
fn gather(text: &[u8], end: usize, ignores_case: bool, letters: &mut Candidate)
    requires { end ≤ length text.now }
    ensures { Extended letters.old letters.new }
{
    let mut at = end;
    while let Ok(place) = skip(text, at, ignores_case) {
        let next = run_end::<Word>(text, place);
        if next == place || letters.push(&text[place..next]).is_err() {
            break;
        }
        at = next;
    }
}

// How many bytes, by eights, a name and letters begin with alike, with case ignored or not.
pub(crate) fn run_alike<const IGNORE_CASE: bool>(name: &[u8], letters: &[u8]) -> usize
    ensures { RunAlike (comparing IGNORE_CASE) name.now letters.now result }
{
    let most = name.len().min(letters.len());
    let mut run = 0;
    while run + 8 <= most {
        if !(eight_same(name, run, letters, run)
            || (IGNORE_CASE && eight_folded(name, run, letters, run)))
        {
            return run;
        }
        run += 8;
    }
    run
}

// Marks the places where a name that has the letters up to there has a blank or ends, and tells where it ends.
fn mark(name: &[u8], letters: &[u8], heads: &mut [bool; PLACES]) -> Option<usize>
    requires fits { length letters.now ≤ 128 }
    requires solid { compact letters.now ≡ letters.now }
    ensures heads { HeadsMarked name.now letters.now heads.old heads.new }
    ensures end { EndTold name.now letters.now result }
{
    let mut place = 0;
    let mut at = 0;
    while at < name.len() {
        // The first byte tells most names apart. Behind it as many are passed as can be, which is tried now and then: a name may have blanks all along.
        if at % 16 == 1 {
            let run = run_alike::<true>(&name[at..], &letters[place..]);
            if run != 0 {
                at += run;
                place += run;
                continue;
            }
        }
        let x = name[at];
        at += 1;
        if is_space(x) {
            heads[place] = heads[place] | (x == b' ');
            continue;
        }
        if place == letters.len() || !same_byte(x, letters[place], true) {
            return None;
        }
        place += 1;
    }
    heads[place] = true;
    Some(place)
}

// What the names of a book say of letters, each asked anew.
fn places_of(book: &DirectiveBook, letters: &[u8]) -> Places
    requires fits { length letters.now ≤ 128 }
    requires solid { compact letters.now ≡ letters.now }
    ensures { Counted (book_of book.now.bytes.now) letters.now result.heads result.ends }
{
    let mut heads = [false; PLACES];
    let mut ends = [Tally::Zero; PLACES];
    let mut number = 0;
    for name in book.directive_names() {
        if let Some(place) = mark(name, letters, &mut heads) {
            ends[place] = ends[place].and(number);
        }
        number += 1;
    }
    Places { heads, ends }
}

impl Foreseen {
    // Made for a candidate that ends at a place of a text.
    pub fn of(
        book: &DirectiveBook,
        compacts: Option<&CompactNames>,
        text: &[u8],
        end: usize,
        candidate: &Candidate,
    ) -> Foreseen
        requires end_in_bounds { end ≤ length text.now }
        requires made { IfCompacts (book_of book.now.bytes.now) (option_copied compacts) }
        ensures { Foretells (book_of book.now.bytes.now) candidate.now result }
    {
        let mut letters = candidate.without_blanks();
        let reached = letters.as_slice().len();
        gather(text, end, book.header.ignores_case, &mut letters);
        let known = letters.as_slice();
        let places = match compacts {
            Some(compacts) => compacts.places(book, known),
            None => places_of(book, known),
        };
        let heads = places.heads;
        let ends = places.ends;
        Foreseen {
            letters,
            reached,
            heads,
            ends,
        }
    }

    // Goes on by the next word of the candidate. If it is not one that was foreseen, this is of no use any more.
    pub fn pass(&mut self, word: &[u8]) -> bool
        requires within { self.old.reached ≤ length self.old.letters }
        requires solid { compact word.now ≡ word.now }
        ensures { Passes self.old self.new word.now result }
    {
        if !begins_at(self.letters.as_slice(), self.reached, word, false) {
            return false;
        }
        self.reached += word.len();
        true
    }

    // Whether some name is the candidate but for blanks, or has a blank behind it.
    pub fn is_head(&self) -> bool
        requires { self.now.reached ≤ 128 }
        ensures { result ≡ get_or self.now.heads self.now.reached false }
    {
        self.heads[self.reached]
    }

    // The entry whose name is the candidate but for blanks, if there is just one.
    pub fn entry(&self) -> Option<usize>
        requires { self.now.reached ≤ 128 }
        ensures { result ≡ only_one (get_or self.now.ends self.now.reached Tally.Zero) }
    {
        self.ends[self.reached].only()
    }
}
