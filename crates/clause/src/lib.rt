// Clauses: one clause under a book's rule, and the sequence of clauses.
#![tactic(auto)]

pub mod many;
pub mod records;
pub mod single;
pub mod steps;

ghost use Rattle.std.specs.Prelude.{◌≡◌, min, length};
ghost use Rattle.refusal.specs.Answer.{told};
ghost use Rattle.code.specs.Marks.{Marked};
ghost use Rattle.rulebook.specs.Book.{book_of};
ghost use Rattle.rulebook.specs.Index.{Fresh};
ghost use Rattle.clause.specs.Clause.{style};
ghost use Rattle.clause.specs.Calls.{Admits, SequenceCall, sequence_call};
ghost use Rattle.clause.specs.Steps.{sequence_into};

use refusal::Refusal;
use rulebook::CheckedBook;
use rulebook::index::Index;

// What is recorded of a clause: offsets of the joined text, its entry in the book, and its commas.
// A zeroed record is bare with every number 0.
#[repr(C)]
#[derive(Clone, Copy, Debug, Default, PartialEq, Eq)]
pub struct ClauseRecord {
    pub name_start: u16,
    pub name_end: u16,
    // index of the clause's entry, 65,535 if it has none: C reads it so
    pub entry: u16,
    pub parenthesized: bool,
    // the trimmed content, 0 0 if bare
    pub content_start: u16,
    pub content_end: u16,
    // a comma stands before the clause
    pub preceded: bool,
    // a comma stands after the last clause
    pub trailing: bool,
}

// The clauses of a text under a book, with the marks of the text (`single::fill_marks`), so that the rest is not scanned anew for each clause.
#[derive(Clone, Copy)]
pub struct ClauseList<'a> {
    pub book: &'a CheckedBook<'a>,
    pub text: &'a [u8],
    pub marks: &'a [u32],
    pub ghost marked: { Marked (style (book_of book.now.bytes.now).ignores_case) text.now marks.now },
}

// A text of fewer bytes than these needs no more numbers for its marks than those: most lines are as short.
const SHORT_TEXT: usize = 1024;

const SHORT_CELLS: usize = 32;

// How many clauses were read, and the place of the unread rest.
#[derive(Clone, Copy, Debug, PartialEq, Eq)]
pub struct SequenceEnd {
    pub count: usize,
    pub rest: usize,
}

// A clause that was read, with the place after it.
#[derive(Clone, Copy, Debug, PartialEq, Eq)]
pub struct ClauseRead {
    pub clause: ClauseRecord,
    pub end: usize,
}

// Why no clause was read: a failure that the default rule judges, or the place of the 257th bracket open.
#[derive(Clone, Copy, Debug, PartialEq, Eq)]
pub enum ClauseError {
    Failed(Refusal),
    Deep(usize),
}

impl From<Refusal> for ClauseError {
    ghost use Rattle.std.specs.Prelude.{◌≡◌};
    ghost use Rattle.clause.specs.declared.ClauseError.{ClauseError};

    ghost from_gives = { λ r e. e ≡ ClauseError.Failed r };

    fn from(refusal: Refusal) -> ClauseError {
        ClauseError::Failed(refusal)
    }
}

// What follows a clause: a place, with or without a comma on the way.
#[derive(Clone, Copy, Debug, PartialEq, Eq)]
pub struct Separation {
    pub comma: bool,
    pub next: usize,
}

// How far a sequence has come: more is to be read, the list has ended, or it is refused. No Result of an Option: a state is no answer that `?` hands on, and
// the three are asked for side by side.
#[derive(Clone, Copy, Debug, PartialEq, Eq)]
pub enum Progress {
    Going,
    Ended,
    Refused(Refusal),
}

// A sequence between two clauses.
#[derive(Clone, Copy, Debug, PartialEq, Eq)]
pub struct SequenceState {
    // the record for the slot of the last step, zeroed if that step read no clause: no Option, since it is written as it is, and a slot without a clause is zero
    pub clause: ClauseRecord,
    pub progress: Progress,
    pub at: usize,
    // a comma stands before the place
    pub comma: bool,
    // slots left, as a number: whether one is left is asked as soon as a clause is read
    pub left: usize,
    // clauses read
    pub count: usize,
}

// An answer with its record slots, by value: of a sequence, or of a line.
#[derive(Clone, Copy)]
pub struct RecordArray<A, const N: usize> {
    pub answer: Result<A, Refusal>,
    pub records: [ClauseRecord; N],
}

// The text and then the book are checked: refusals 1, 2 and 4.
fn admitted<'a>(
    book: &'a [u8],
    text: &[u8],
    index: &'a mut Index,
) -> Result<CheckedBook<'a>, Refusal>
    requires { Fresh index.old }
    ensures { Admits book.now text.now result }
{
    refusal::check_text(text)?;
    rulebook::checked(book, index)
}

// The clauses of a text into the lent slots. Refusals 1, 2 and 4, then 8 and 10 to 14 in reading order.
pub fn parse_sequence(
    book: &[u8],
    text: &[u8],
    records: &mut [ClauseRecord],
) -> Result<SequenceEnd, Refusal>
    ensures { record { answer = told result; records = records.new }
        ≡ sequence_call book.now text.now (length records.old) }
{
    let mut index = Index::new();
    match admitted(book, text, &mut index) {
        Ok(book) => {
            let start = SequenceState::start_at(&book, text, 0, records.len());
            records::read_clauses(&book, text, start, records)
        }
        Err(refusal) => {
            records.fill(records::zero_record());
            Err(refusal)
        }
    }
}

// The same over an array by value, of which so many slots are used: for callers that hold their records in a local.
pub fn parse_sequence_array<const N: usize>(
    book: &[u8],
    text: &[u8],
    slots: usize,
    mut records: [ClauseRecord; N],
) -> RecordArray<SequenceEnd, N>
    ensures { record { answer = told result.answer; records = result.records }
        ≡ sequence_into book.now text.now (min slots N) N }
{
    let used = slots.min(N);
    let lent = &mut records[..];
    let answer = parse_sequence(book, text, &mut lent[..used]);
    lent[used..].fill(records::zero_record());
    RecordArray { answer, records }
}
