// The answers of many lines under one check of their book.
ghost use Rattle.std.specs.Prelude.{◌≡◌, length};
ghost use Rattle.std.specs.Option.{option_copied};
ghost use Rattle.refusal.specs.Answer.{told};
ghost use Rattle.rulebook.specs.Judged.{Judged, Judged-prop};
ghost use Rattle.directive.specs.Compacts.{IfChecked, IfChecked-prop};
ghost use Rattle.coded.specs.Coded.{coded_reading};
ghost use Rattle.reader.specs.Calls.{line_call};

use crate::code_of;
use crate::parts::AnswerPart;
use directive::compacts::CompactNames;
use lexer::Dialect;
use reader::{Reading, many};
use refusal::Refusal;
use rulebook::CheckedBook;

// A line's answer as five numbers.
pub fn line_numbers(answer: Result<Reading, Refusal>) -> [u64; 5]
    ensures { result ≡ coded_reading (told answer) }
{
    match answer {
        Ok(read) => [
            read.entry as u64,
            read.name_start as u64,
            read.name_end as u64,
            read.count as u64,
            read.rest as u64,
        ],
        Err(refused) => [code_of(refused), 0, 0, 0, 0],
    }
}

// What a line is read with: its book as the check left it, and working space. What text and map hold after a line is not said.
#[derive(Drop)]
pub struct LineReader<'a, 'b, 'c> {
    pub dialect: Dialect,
    pub book: &'a [u8],
    pub checked: Result<CheckedBook<'a>, Refusal>,
    // made once for all lines, if any; they live shorter than what the book is checked with
    pub compacts: Option<&'c CompactNames>,
    pub text: &'b mut [u8],
    pub map: &'b mut [u16],
    // record slots that a line may take
    pub slots: usize,
    pub ghost judged: { Judged book.now checked } by { Judged-prop book.now checked },
    pub ghost made: { IfChecked checked (option_copied compacts) } by { IfChecked-prop checked (option_copied compacts) },
}

impl AnswerPart<5> for LineReader<'_, '_, '_> {
    ghost answers = { λ r line. coded_reading (line_call r.dialect.language r.dialect.prefix r.book.now line (length r.text.now) (length r.map.now) r.slots).answer };

    fn answer(&mut self, line: &[u8]) -> [u64; 5] {
        line_numbers(many::line_answer(
            self.dialect,
            &self.checked,
            self.compacts,
            line,
            self.text,
            self.map,
            self.slots,
        ))
    }
}
