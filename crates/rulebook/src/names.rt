// A book's entries of one kind, and their names one after another.
ghost use Rattle.std.specs.Prelude.{◌≡◌, ◌≤◌, ℕ, List};
ghost use Rattle.std.specs.Iterator.{YieldsFirstRef, item_count};
ghost use Rattle.bookform.specs.Format.{lead_of};
ghost use Rattle.rulebook.specs.Book.{Laid, LaidIn, Laid-prop, names_from};

use crate::lookup::name_at;
use bookform::Entries;
use std::marker::Model;

// Entries of one kind, which lie inside their book.
#[derive(Clone, Copy)]
pub struct Listed<'a> {
    pub book: &'a [u8],
    pub entries: Entries,
    pub ghost laid: { LaidIn entries book.now } by { Laid-prop (lead_of entries.kind) entries.count entries.first book.now },
}

impl<'a> Listed<'a> {
    // So many of the entries, from the first on.
    pub fn first(self, count: usize) -> Listed<'a>
        requires { count ≤ self.entries.count }
        ensures book { result.book ≡ self.entry.book }
        ensures entries { result.entries ≡ record { kind = self.entry.entries.kind; first = self.entry.entries.first; count = count } }
    {
        Listed {
            book: self.book,
            entries: Entries {
                kind: self.entries.kind,
                first: self.entries.first,
                count,
            },
        }
    }

    pub fn names(self) -> Names<'a>
        ensures { result ≡ names_from (lead_of self.entry.entries.kind) self.entry.entries.count self.entry.entries.first self.entry.book.now }
    {
        Names {
            book: self.book,
            lead: self.entries.kind.lead(),
            at: self.entries.first,
            left: self.entries.count,
        }
    }
}

// Yields the names of the entries that are left, in order; clauses see it as the list of these names.
#[derive(Drop)]
pub struct Names<'a> {
    book: &'a [u8],
    lead: usize,
    at: usize,
    left: usize,
}

impl<'a> Model for Names<'a> {
    ghost Value = { List (List ℕ) };

    ghost view = { λ s. names_from s.lead s.left s.at s.book.now };

    ghost invariant = { λ s. Laid s.lead s.left s.at s.book.now };
}

impl<'a> Iterator for Names<'a> {
    type Item = &'a [u8];

    ghost next_gives = { YieldsFirstRef (λ names. names) };

    ghost remaining = { item_count (λ names. names) };

    fn next(&mut self) -> Option<&'a [u8]> {
        if self.left == 0 {
            return None;
        }
        let range = name_at(self.book, self.lead, self.at);
        self.at = range.end;
        self.left -= 1;
        Some(&self.book[range.start..range.end])
    }
}
