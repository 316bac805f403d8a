// The answer of a sequence under a book that was checked: for calls that read many of them under one check.
ghost use Rattle.std.specs.Prelude.{◌≡◌, ◌/◌, ◌<◌, ◌≤◌, ℕ, List, length};
ghost use Rattle.refusal.specs.Answer.{told, given, and_then, max_length};
ghost use Rattle.rulebook.specs.Judged.{Judged};
ghost use Rattle.clause.specs.Calls.{counted, sequence_call};
ghost use Rattle.clause.specs.Steps.{Started, read_on};

use crate::{ClauseList, SHORT_CELLS, SHORT_TEXT, SequenceEnd, SequenceState, single};
use code::MARK_CELLS;
use refusal::Refusal;
use rulebook::CheckedBook;

impl ClauseList<'_> {
    // The answer of the clauses from a state on, with so many slots. Each clause's record is made, and not kept.
    fn count_from(&self, start: SequenceState, slots: usize) -> Result<SequenceEnd, Refusal>
        requires { Started self.now.text.now slots start }
        ensures { told result ≡ and_then (read_on self.now.book.now.bytes.now self.now.text.now start) (λ s. given (counted s)) }
    {
        let mut s = start;
        // beside the loop that writes: there is no slot here, and a closure for one would hide what is kept
        for _ in 0..slots {
            s = self.next(s);
            if !s.goes_on() {
                return self.finish(s);
            }
        }
        self.finish(s)
    }
}

// The same of a text, which is marked first, in an array of N numbers.
fn count_marked<const N: usize>(
    book: &CheckedBook,
    text: &[u8],
    start: SequenceState,
    slots: usize,
) -> Result<SequenceEnd, Refusal>
    requires short { (length text.now ≤ max_length) × (length text.now / 32 < N) × (N ≤ 513) }
    requires started { Started text.now slots start }
    ensures { told result ≡ and_then (read_on book.now.bytes.now text.now start) (λ s. given (counted s)) }
{
    let mut marks = [0; N];
    single::fill_marks(book, text, &mut marks);
    let list = ClauseList {
        book,
        text,
        marks: &marks,
    };
    list.count_from(start, slots)
}

// The same in an array that is no longer than it need be, since all of it is zeroed.
pub fn count_clauses(
    book: &CheckedBook,
    text: &[u8],
    start: SequenceState,
    slots: usize,
) -> Result<SequenceEnd, Refusal>
    requires { Started text.now slots start }
    ensures { told result ≡ and_then (read_on book.now.bytes.now text.now start) (λ s. given (counted s)) }
{
    // a start that does not go on says nothing of the length of its text
    if !start.goes_on() {
        return start.answer();
    }
    if text.len() < SHORT_TEXT {
        return count_marked::<SHORT_CELLS>(book, text, start, slots);
    }
    count_marked::<MARK_CELLS>(book, text, start, slots)
}

// Beside `parse_sequence`, which checks its book and keeps the records.
// The answer of a text with so many record slots, under a book as its check left it.
pub fn sequence_answer(
    book: &Result<CheckedBook, Refusal>,
    text: &[u8],
    slots: usize,
) -> Result<SequenceEnd, Refusal>
    ensures { (bytes : List ℕ) → Judged bytes book.now → told result ≡ (sequence_call bytes text.now slots).answer }
{
    refusal::check_text(text)?;
    match book {
        Ok(book) => {
            let start = SequenceState::start_at(book, text, 0, slots);
            count_clauses(book, text, start, slots)
        }
        Err(refusal) => Err(*refusal),
    }
}
