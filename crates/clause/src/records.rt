// The thin writers: clause records into a lent slice of slots.
ghost use Rattle.std.specs.Prelude.{◌≡◌, ◌/◌, ◌<◌, ◌≤◌, ℕ, List, length, IfSome};
ghost use Rattle.std.specs.Option.{IsSome};
ghost use Rattle.refusal.specs.Answer.{told, max_length};
ghost use Rattle.clause.specs.Clause.{zero_record};
ghost use Rattle.clause.specs.Calls.{SequenceCall};
ghost use Rattle.clause.specs.Steps.{Proper, Started, WhenGoing, state_at, records_from, read_on, settled};

use crate::{
    ClauseList, ClauseRecord, SHORT_CELLS, SHORT_TEXT, SequenceEnd, SequenceState, single,
};
use code::MARK_CELLS;
use refusal::Refusal;
use rulebook::CheckedBook;

// A record of no clause: `default`, with a contract that says what it is.
pub fn zero_record() -> ClauseRecord
    ensures { result ≡ zero_record }
{
    ClauseRecord::default()
}

impl ClauseList<'_> {
    // Every slot gets the record of its step, a zeroed one once the list has ended. The result is the state after the last.
    // The first step that does not go on is the last that is made: from there on nothing but zeroed records would come.
    fn fill_records(&self, start: SequenceState, records: &mut [ClauseRecord]) -> SequenceState
        requires { Proper self.now.text.now start }
        ensures state { result ≡ state_at self.now.book.now.bytes.now self.now.text.now start (length records.old) }
        ensures records { records.new ≡ records_from self.now.book.now.bytes.now self.now.text.now start 0 (length records.old) }
    {
        let mut s = start;
        // by an index, since the rest is zeroed from there on
        for i in 0..records.len() {
            s = self.next(s);
            records[i] = s.clause;
            if !s.goes_on() {
                records[i + 1..].fill(zero_record());
                return s;
            }
        }
        s
    }

    // The clauses from a state on into the slots: each slot its record, all zeroed after a refusal.
    fn read_from(
        &self,
        start: SequenceState,
        records: &mut [ClauseRecord],
    ) -> Result<SequenceEnd, Refusal>
        requires { Started self.now.text.now (length records.old) start }
        ensures { record { answer = told result; records = records.new }
            ≡ settled (length records.old) (read_on self.now.book.now.bytes.now self.now.text.now start) }
    {
        let end = self.fill_records(start, records);
        let answer = self.finish(end);
        if answer.is_err() {
            records.fill(zero_record());
        }
        answer
    }
}

// The same of a text, which is marked first, in an array of N numbers.
fn read_marked<const N: usize>(
    book: &CheckedBook,
    text: &[u8],
    start: SequenceState,
    records: &mut [ClauseRecord],
) -> Result<SequenceEnd, Refusal>
    requires short { (length text.now ≤ max_length) × (length text.now / 32 < N) × (N ≤ 513) }
    requires started { Started text.now (length records.old) start }
    ensures { record { answer = told result; records = records.new } ≡ settled (length records.old) (read_on book.now.bytes.now text.now start) }
{
    let mut marks = [0; N];
    single::fill_marks(book, text, &mut marks);
    let list = ClauseList {
        book,
        text,
        marks: &marks,
    };
    list.read_from(start, records)
}

// The same in an array that is no longer than it need be, since all of it is zeroed.
pub fn read_clauses(
    book: &CheckedBook,
    text: &[u8],
    start: SequenceState,
    records: &mut [ClauseRecord],
) -> Result<SequenceEnd, Refusal>
    requires short { length text.now ≤ max_length }
    requires started { Started text.now (length records.old) start }
    ensures { record { answer = told result; records = records.new } ≡ settled (length records.old) (read_on book.now.bytes.now text.now start) }
{
    if text.len() < SHORT_TEXT {
        return read_marked::<SHORT_CELLS>(book, text, start, records);
    }
    read_marked::<MARK_CELLS>(book, text, start, records)
}

// The same from a start that may have ended or been refused: only one that goes on is read, under its book. Of any other the book and the text are asked nothing.
pub fn read_from(
    book: Option<&CheckedBook>,
    text: &[u8],
    start: SequenceState,
    records: &mut [ClauseRecord],
) -> Result<SequenceEnd, Refusal>
    requires started { Started text.now (length records.old) start }
    requires checked { WhenGoing start.progress (IsSome book) }
    ensures { (bytes : List ℕ) → IfSome book.entry (λ b. b.now.bytes.now ≡ bytes) → record { answer = told result; records = records.new }
        ≡ settled (length records.old) (read_on bytes text.now start) }
{
    if start.goes_on() {
        if let Some(book) = book {
            return read_clauses(book, text, start, records);
        }
    }
    records.fill(zero_record());
    start.answer()
}
