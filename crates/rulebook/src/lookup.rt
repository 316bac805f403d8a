// Reading a book whose form is right: its header, its entries, and names looked up among them.
ghost use Rattle.std.specs.Prelude.{◌≡◌, ℕ, ◌<◌, ◌≤◌, get_or, length, map};
ghost use Rattle.ascii.specs.Text.{same_by, comparing};
ghost use Rattle.bookform.specs.Format.{rule_for, HasForm};
ghost use Rattle.rulebook.specs.Book.{rule_said, name_at, header_of, book_of};
ghost use Rattle.rulebook.specs.Lookup.{comparison, entry_from, clause_entry};

use crate::names::{Listed, Names};
use crate::{CheckedBook, ClauseEntry, DirectiveBook, Header};
use ascii::{Range, same_byte};
use bookform::{ClauseRule, Entries, EntryKind};

// Whether two names are equal, with case ignored or not.
pub fn same(a: &[u8], b: &[u8], ignore_case: bool) -> bool
    ensures { result ≡ same_by (comparing ignore_case) a.now b.now }
{
    // names that begin alike, as those that count upwards, differ near their end
    a.len() == b.len()
        && a.iter()
            .rev()
            .zip(b.iter().rev())
            .all(|(x, y)| same_byte(*x, *y, ignore_case))
}

// The rule that a byte of a book says.
fn rule_said(b: u8) -> ClauseRule
    ensures { result ≡ rule_said (rule_for b) }
{
    ClauseRule::try_from(b).unwrap_or(ClauseRule::Unsupported)
}

// Where the name of the entry at a place stands; the next entry follows it.
pub fn name_at(book: &[u8], lead: usize, at: usize) -> Range
    requires { (name_at lead at book.now).end ≤ length book.now }
    ensures { result ≡ name_at lead at book.now }
{
    let place = at + lead;
    let start = place + 1;
    Range {
        start,
        end: start + usize::from(book[place]),
    }
}

// A book whose form is right. That its items are bytes is a fact here, since the proofs learn it of a parameter that is a slice, not of a field.
#[derive(Clone, Copy)]
pub struct FormedBook<'a> {
    pub bytes: &'a [u8],
    pub ghost in_range: { (i : ℕ) → get_or bytes.now i 0 < 256 },
    pub ghost has_form: { HasForm bytes.now },
}

impl<'a> FormedBook<'a> {
    // Its directive entries.
    pub fn directives(self) -> Entries
        ensures { result ≡ (header_of self.entry.bytes.now).directives }
    {
        Entries {
            kind: EntryKind::Directive,
            first: 9,
            count: usize::from(self.bytes[7]),
        }
    }

    // Its clause entries, which begin where the directives end.
    pub fn clauses(self, first: usize) -> Entries
        requires { first ≡ (header_of self.bytes.now).clauses.first }
        ensures { result ≡ (header_of self.entry.bytes.now).clauses }
    {
        Entries {
            kind: EntryKind::Clause,
            first,
            count: usize::from(self.bytes[8]),
        }
    }

    // Its header, once the place is known where its directives end.
    pub fn header(self, end: usize) -> Header
        requires { end ≡ (header_of self.bytes.now).clauses.first }
        ensures { result ≡ header_of self.entry.bytes.now }
    {
        let flags = self.bytes[5];
        Header {
            ignores_case: flags % 2 == 1,
            optional_blanks: flags / 2 % 2 == 1,
            default_rule: rule_said(self.bytes[6]),
            directives: self.directives(),
            clauses: self.clauses(end),
        }
    }
}

impl<'a> CheckedBook<'a> {
    // The entry of a clause's name, and its rule.
    pub fn find_clause(&self, name: &[u8]) -> ClauseEntry
        ensures { result ≡ clause_entry (book_of self.now.bytes.now) name.now }
    {
        let header = self.header;
        let listed = Listed {
            book: self.bytes,
            entries: header.clauses,
        };
        match self
            .index
            .clauses
            .look_up(listed, name, header.ignores_case)
        {
            Some(found) => ClauseEntry {
                index: Some(found.index as u16),
                rule: rule_said(self.bytes[found.at]),
            },
            None => ClauseEntry {
                index: None,
                rule: header.default_rule,
            },
        }
    }

    // What reading a directive's name asks of it.
    pub fn directive_book(&self) -> DirectiveBook<'a>
        ensures bytes { result.bytes.now ≡ self.now.bytes.now }
        ensures header { result.header ≡ self.now.header }
    {
        DirectiveBook {
            bytes: self.bytes,
            header: self.header,
            directives: &self.index.directives,
        }
    }

    // The index of a directive's entry.
    pub fn find_directive(&self, name: &[u8]) -> Option<usize>
        ensures { result ≡ entry_from (comparison (book_of self.now.bytes.now)) 0 name.now (book_of self.now.bytes.now).directives }
    {
        self.directive_book().find_directive(name)
    }

    // The directives' names, in the order of their entries.
    pub fn directive_names(&self) -> Names<'a>
        ensures { result ≡ map (λ e. e.name) (book_of self.now.bytes.now).directives }
    {
        self.directive_book().directive_names()
    }
}

impl<'a> DirectiveBook<'a> {
    // The index of a directive's entry.
    pub fn find_directive(&self, name: &[u8]) -> Option<usize>
        ensures { result ≡ entry_from (comparison (book_of self.now.bytes.now)) 0 name.now (book_of self.now.bytes.now).directives }
    {
        let header = self.header;
        let listed = Listed {
            book: self.bytes,
            entries: header.directives,
        };
        let found = self.directives.look_up(listed, name, header.ignores_case)?;
        Some(found.index)
    }

    // The directives' names, in the order of their entries.
    pub fn directive_names(&self) -> Names<'a>
        ensures { result ≡ map (λ e. e.name) (book_of self.now.bytes.now).directives }
    {
        let listed = Listed {
            book: self.bytes,
            entries: self.header.directives,
        };
        listed.names()
    }
}
