// The sequence of clauses as steps over a state by value.
ghost use Rattle.std.specs.Prelude.{◌≡◌, cond, ◌≤◌, ◌<◌, length, eqb};
ghost use Rattle.refusal.specs.Answer.{max_length};
ghost use Rattle.rulebook.specs.Book.{book_of};
ghost use Rattle.clause.specs.Sequence.{separated, is_unsupported};
ghost use Rattle.clause.specs.Steps.{Proper, Ready, begun as begun_of, start_at as start_at_of, still as still_of, stopped as stopped_of, gone as gone_of, behind as behind_of, onward as onward_of, next_state, is_going, answer_of};
ghost use Rattle.refusal.specs.Verdict.{refusal_at};

use crate::{
    ClauseError, ClauseList, ClauseRead, ClauseRecord, Progress, Separation, SequenceEnd,
    SequenceState, records, single,
};
use bookform::ClauseRule;
use refusal::{Reason, Refusal};
use rulebook::CheckedBook;

fn begun(progress: Progress, at: usize, slots: usize) -> SequenceState
    ensures { result ≡ begun_of progress at slots }
{
    SequenceState {
        clause: records::zero_record(),
        progress,
        at,
        comma: false,
        left: slots,
        count: 0,
    }
}

impl SequenceState {
    // Whether more is to be read.
    pub fn goes_on(self) -> bool
        ensures { result ≡ is_going self.progress }
    {
        matches!(self.progress, Progress::Going)
    }

    // The state at the same place, with no record for the slot of this step.
    fn still(self, progress: Progress) -> SequenceState
        ensures { result ≡ still_of self progress }
    {
        SequenceState {
            clause: records::zero_record(),
            progress,
            ..self
        }
    }

    fn stopped(self, refusal: Refusal) -> SequenceState
        ensures { result ≡ stopped_of self refusal }
    {
        self.still(Progress::Refused(refusal))
    }

    // Past a clause and its separator, in a text of so many bytes.
    fn gone(self, size: usize, read: ClauseRead, separation: Separation) -> SequenceState
        requires { (0 < self.left) × (self.count ≤ max_length) }
        ensures { result ≡ gone_of size self read separation }
    {
        SequenceState {
            clause: ClauseRecord {
                preceded: self.comma,
                trailing: separation.comma && separation.next == size,
                ..read.clause
            },
            progress: Progress::Going,
            at: separation.next,
            comma: separation.comma,
            left: self.left - 1,
            count: self.count + 1,
        }
    }

    // The start at a place of a text, with so many slots.
    pub fn start_at(book: &CheckedBook, text: &[u8], at: usize, slots: usize) -> SequenceState
        requires { at ≤ length text.now }
        ensures { result ≡ start_at_of book.now.bytes.now text.now slots at }
    {
        match lexer::trivia::skip(text, at, book.header.ignores_case) {
            Ok(place) => begun(Progress::Going, place, slots),
            Err(refusal) => begun(Progress::Refused(refusal), refusal.place, slots),
        }
    }

    // The answer, once the last step is done.
    pub(crate) fn answer(self) -> Result<SequenceEnd, Refusal>
        ensures { result ≡ answer_of self }
    {
        match self.progress {
            Progress::Refused(refusal) => Err(refusal),
            Progress::Going | Progress::Ended => Ok(SequenceEnd {
                count: self.count,
                rest: self.at,
            }),
        }
    }
}

impl ClauseList<'_> {
    // The default rule judges a clause that fails.
    fn judged(&self, s: SequenceState, refusal: Refusal) -> SequenceState
        ensures { result ≡ cond (is_unsupported (book_of self.now.book.now.bytes.now).default) (stopped_of s refusal) (still_of s Progress.Ended) }
    {
        if matches!(self.book.header.default_rule, ClauseRule::Unsupported) {
            s.stopped(refusal)
        } else {
            s.still(Progress::Ended)
        }
    }

    // A clause that was read: a slot for it, and what follows.
    fn took(&self, s: SequenceState, read: ClauseRead) -> SequenceState
        requires { (read.end ≤ length self.now.text.now) × (s.count ≤ max_length) }
        ensures { result ≡ cond (eqb s.left 0) (stopped_of s (refusal_at Reason.NoSlot s.at))
            (behind_of (length self.now.text.now) s read (separated (book_of self.now.book.now.bytes.now).ignores_case self.now.text.now read.end)) }
    {
        if s.left == 0 {
            return s.stopped(Reason::NoSlot.at(s.at));
        }
        match single::separation(self.text, read.end, self.book.header.ignores_case) {
            Ok(separation) => s.gone(self.text.len(), read, separation),
            Err(refusal) => s.stopped(refusal),
        }
    }

    // One clause more, where the sequence goes on.
    fn onward(&self, s: SequenceState) -> SequenceState
        requires { Ready self.now.text.now s }
        ensures { result ≡ onward_of (book_of self.now.book.now.bytes.now) self.now.text.now s Progress.Going }
    {
        if s.at == self.text.len() {
            return s.still(Progress::Ended);
        }
        match self.read_clause(s.at) {
            Ok(read) => self.took(s, read),
            Err(ClauseError::Failed(refusal)) => self.judged(s, refusal),
            Err(ClauseError::Deep(place)) => s.stopped(Reason::TooDeep.at(place)),
        }
    }

    // The state after one clause more; its record is for the next slot. `Proper`, here and where steps are made, tells of a text and a state: a type
    // that holds it would be made anew at each step.
    pub fn next(&self, s: SequenceState) -> SequenceState
        requires { Proper self.now.text.now s }
        ensures { result ≡ next_state self.now.book.now.bytes.now self.now.text.now s }
    {
        if s.goes_on() {
            self.onward(s)
        } else {
            s.still(s.progress)
        }
    }

    // The answer, once a step more than there are slots has told whether a clause is left.
    pub fn finish(&self, s: SequenceState) -> Result<SequenceEnd, Refusal>
        requires { Proper self.now.text.now s }
        ensures { result ≡ answer_of (next_state self.now.book.now.bytes.now self.now.text.now s) }
    {
        self.next(s).answer()
    }
}
