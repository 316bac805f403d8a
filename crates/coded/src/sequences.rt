// The answers of many clause sequences under one check of their book.
ghost use Rattle.std.specs.Prelude.{◌≡◌, length};
ghost use Rattle.refusal.specs.Answer.{told};
ghost use Rattle.clause.specs.Calls.{sequence_call};
ghost use Rattle.rulebook.specs.Judged.{Judged, Judged-prop};
ghost use Rattle.coded.specs.Sequences.{coded_end};

use crate::code_of;
use crate::parts::AnswerPart;
use clause::{SequenceEnd, many};
use refusal::Refusal;
use rulebook::CheckedBook;

// A sequence's answer as two numbers.
pub fn sequence_numbers(answer: Result<SequenceEnd, Refusal>) -> [u64; 2]
    ensures { result ≡ coded_end (told answer) }
{
    match answer {
        Ok(end) => [end.count as u64, end.rest as u64],
        Err(refused) => [code_of(refused), 0],
    }
}

// What a sequence is read with: its book as the check left it.
#[derive(Clone, Copy)]
pub struct SequenceReader<'a> {
    pub book: &'a [u8],
    pub checked: Result<CheckedBook<'a>, Refusal>,
    // record slots that a sequence may take
    pub slots: usize,
    pub ghost judged: { Judged book.now checked } by { Judged-prop book.now checked },
}

impl AnswerPart<2> for SequenceReader<'_> {
    ghost answers = { λ r text. coded_end (sequence_call r.book.now text r.slots).answer };

    fn answer(&mut self, text: &[u8]) -> [u64; 2] {
        sequence_numbers(many::sequence_answer(&self.checked, text, self.slots))
    }
}
