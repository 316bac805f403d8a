// The book: a file of directive names, clause names and rules.
#![tactic(auto)]

mod check;
pub mod index;
pub mod lookup;
pub mod names;
mod order;
mod repeats;

ghost use Rattle.std.specs.Prelude.{◌≡◌, ◌<◌, ℕ, None, get_or};
ghost use Rattle.bookform.specs.Format.{HasForm};
ghost use Rattle.rulebook.specs.Book.{header_of};
ghost use Rattle.rulebook.specs.Check.{book_fault};
ghost use Rattle.rulebook.specs.Index.{Looked, Indexes};

use bookform::{ClauseRule, Entries};
pub use check::{check_book, checked};
use index::{Index, NameIndex};

// What a book's header says.
#[derive(Clone, Copy, Debug, PartialEq, Eq)]
pub struct Header {
    pub ignores_case: bool,
    pub optional_blanks: bool,
    pub default_rule: ClauseRule,
    pub directives: Entries,
    pub clauses: Entries,
}

// What a book says of a clause's name: the index of its entry, if it has one, and its rule.
#[derive(Clone, Copy, Debug, PartialEq, Eq)]
pub struct ClauseEntry {
    pub index: Option<u16>,
    pub rule: ClauseRule,
}

// A valid book, with its header and the index by which its names are looked up.
#[derive(Clone, Copy)]
pub struct CheckedBook<'a> {
    pub bytes: &'a [u8],
    pub header: Header,
    pub(crate) index: &'a Index,
    pub ghost in_range: { (i : ℕ) → get_or bytes.now i 0 < 256 },
    pub ghost valid: { book_fault bytes.now ≡ None },
    pub ghost header_read: { header ≡ header_of bytes.now },
    pub ghost indexed: { Indexes bytes.now index.now },
}

// A book whose form is right, with its header and the index by which its directives' names are looked up: all that reading a directive's name asks. A
// checked book gives it; whoever has such an index may make one, also where clause names repeat.
#[derive(Clone, Copy)]
pub struct DirectiveBook<'a> {
    pub bytes: &'a [u8],
    pub header: Header,
    pub directives: &'a NameIndex,
    pub ghost in_range: { (i : ℕ) → get_or bytes.now i 0 < 256 },
    pub ghost has_form: { HasForm bytes.now },
    pub ghost header_read: { header ≡ header_of bytes.now },
    pub ghost looked: { Looked header.directives bytes.now directives.now },
}
