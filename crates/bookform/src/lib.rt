// The form of a book: what its bytes may be, and the first that may not.
#![tactic(auto)]

pub mod format;
mod passing;

ghost use Rattle.std.specs.Prelude.{◌≡◌};
ghost use Rattle.bookform.specs.Format.{lead_of};

// What a clause may look like.
#[derive(Clone, Copy, Debug, PartialEq, Eq)]
pub enum ClauseRule {
    // a word alone
    Bare,
    // a word with an argument in parentheses
    Parenthesized,
    // either
    Flexible,
    // refused
    Unsupported,
}

// A rule byte that names no rule.
#[derive(Clone, Copy, Debug, PartialEq, Eq)]
pub struct UnknownRule(pub u8);

// What a reader of a book waits for. Counts of entries are of those that come after the one being read.
// Directives and clauses are two numbers and no struct: they are the definition's own arguments (`directives_left d c`), and each state keeps what is left of them.
#[derive(Clone, Copy, Debug, PartialEq, Eq)]
pub enum Expect {
    // a byte of the header, 0 to 7
    HeaderByte(usize),
    // byte 8, after so many directives were announced
    ClauseCount(usize),
    // the length byte of a directive entry; directives and clauses to come after it
    DirectiveLength(usize, usize),
    // a byte of a directive's name; bytes of the name after it, whether the byte before was of a word, directives and clauses after it
    DirectiveName(usize, bool, usize, usize),
    // the rule byte of a clause entry; clauses after it
    Rule(usize),
    ClauseLength(usize),
    // a byte of a clause's name; bytes of the name after it, clauses after it
    ClauseName(usize, usize),
    // nothing: the book is whole
    End,
}

// A place of a book, and what is waited for there.
#[derive(Clone, Copy, Debug, PartialEq, Eq)]
pub struct Waiting {
    pub at: usize,
    pub expect: Expect,
}

// The kinds of a book's entries.
#[derive(Clone, Copy, Debug, PartialEq, Eq)]
pub enum EntryKind {
    // a length byte and a name
    Directive,
    // a rule byte, and a length byte and a name behind it
    Clause,
}

// Where entries of one kind stand: the place of the first one, and how many there are.
#[derive(Clone, Copy, Debug, PartialEq, Eq)]
pub struct Entries {
    pub kind: EntryKind,
    pub first: usize,
    pub count: usize,
}

impl EntryKind {
    // How many bytes come before the length byte of an entry.
    pub fn lead(self) -> usize
        ensures { result ≡ lead_of self }
    {
        match self {
            EntryKind::Directive => 0,
            EntryKind::Clause => 1,
        }
    }
}
