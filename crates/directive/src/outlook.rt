// What is kept of a book's names from word to word of one line, so that no name is held against each word anew.
ghost use Rattle.std.specs.Prelude.{◌≡◌, ◌≤◌, ◌<◌, ℕ, List, [], length};
ghost use Rattle.std.specs.Option.{option_copied};
ghost use Rattle.rulebook.specs.Book.{Book, book_of};
ghost use Rattle.rulebook.specs.Lookup.{comparison, entry_from};
ghost use Rattle.directive.specs.Name.{compact, extended, entry_of, may_grow};
ghost use Rattle.directive.specs.Kept.{Within, KeptFor, Asked};
ghost use Rattle.directive.specs.Compacts.{IfCompacts};

use crate::candidate::Candidate;
use crate::compacts::CompactNames;
use crate::foreseen::Foreseen;
use crate::names::NamesLeft;
use rulebook::DirectiveBook;

// The most bytes of a name.
const LONGEST: usize = 64;

// The names that are left for the candidate as it stands, and what was foreseen where blanks do not count: that is made at the first candidate that is no name
// as it stands.
#[derive(Drop)]
pub struct Outlook<'a> {
    pub left: NamesLeft<'a>,
    pub foreseen: Option<Foreseen>,
}

// The entry of a candidate that is a name as it stands.
fn plain_entry(book: &DirectiveBook, candidate: &[u8]) -> Option<usize>
    ensures { result ≡ entry_from (comparison (book_of book.now.bytes.now)) 0 candidate.now (book_of book.now.bytes.now).directives }
{
    if LONGEST < candidate.len() {
        return None;
    }
    book.find_directive(candidate)
}

impl<'a> Outlook<'a> {
    pub fn new(book: &DirectiveBook<'a>) -> Outlook<'a>
        ensures { KeptFor (book_of book.now.bytes.now) [] result }
    {
        Outlook {
            left: NamesLeft::new(book),
            foreseen: None,
        }
    }

    // The candidate has a word more.
    pub fn pass(&mut self, word: &[u8])
        requires within { Within self.old.foreseen }
        requires some { 0 < length word.now }
        requires solid { compact word.now ≡ word.now }
        ensures { (book : Book) (c : List ℕ) → KeptFor book c self.old → KeptFor book (extended c word.now) self.new }
    {
        if let Some(foreseen) = &mut self.foreseen {
            if !foreseen.pass(word) {
                self.foreseen = None;
            }
        }
    }

    // The entry of a candidate, which ends at a place of a text: the name itself, or else, where blanks in names are optional, the one name that is equal
    // without them.
    pub fn entry_of(
        &mut self,
        book: &DirectiveBook,
        compacts: Option<&CompactNames>,
        text: &[u8],
        end: usize,
        candidate: &Candidate,
    ) -> Option<usize>
        requires end_in_bounds { end ≤ length text.now }
        requires made { IfCompacts (book_of book.now.bytes.now) (option_copied compacts) }
        requires ready { KeptFor (book_of book.now.bytes.now) candidate.now self.old }
        ensures value { result ≡ entry_of (book_of book.now.bytes.now) candidate.now }
        ensures ready_2 { KeptFor (book_of book.now.bytes.now) candidate.now self.new }
        ensures asked { Asked (book_of book.now.bytes.now) result self.new }
    {
        let named = plain_entry(book, candidate.as_slice());
        if named.is_some() || !book.header.optional_blanks {
            return named;
        }
        if self.foreseen.is_none() {
            self.foreseen = Some(Foreseen::of(book, compacts, text, end, candidate));
        }
        self.foreseen.as_ref()?.entry()
    }

    // Whether some name equals a candidate or begins with its words. One that has an entry is such a name, and no other is asked.
    pub fn may_grow(&mut self, book: &DirectiveBook, candidate: &[u8], entry: Option<usize>) -> bool
        requires not_empty { 0 < length candidate.now }
        requires value { entry ≡ entry_of (book_of book.now.bytes.now) candidate.now }
        requires ready { KeptFor (book_of book.now.bytes.now) candidate.now self.old }
        requires asked { Asked (book_of book.now.bytes.now) entry self.old }
        ensures value_2 { result ≡ may_grow (book_of book.now.bytes.now) candidate.now }
        ensures ready_2 { KeptFor (book_of book.now.bytes.now) candidate.now self.new }
    {
        if entry.is_some() {
            return true;
        }
        if !book.header.optional_blanks {
            return self.left.any_begins(candidate, book.header.ignores_case);
        }
        match &self.foreseen {
            Some(foreseen) => foreseen.is_head(),
            None => false,
        }
    }
}
