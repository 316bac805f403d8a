// The answer of a line under a book that was checked: for calls that read many lines under one check.
ghost use Rattle.std.specs.Prelude.{◌≡◌, ℕ, List, length};
ghost use Rattle.std.specs.Option.{option_copied};
ghost use Rattle.refusal.specs.Answer.{told};
ghost use Rattle.rulebook.specs.Judged.{Judged};
ghost use Rattle.directive.specs.Compacts.{IfChecked};
ghost use Rattle.reader.specs.Calls.{line_call};

use crate::{Reading, heading};
use clause::many::count_clauses;
use directive::compacts::CompactNames;
use lexer::Dialect;
use refusal::Refusal;
use rulebook::CheckedBook;

// Beside `read_up_to`: many lines share the check of one book, and no record is kept, so that only the steps of a head are common.
// The answer of a line with so many record slots, under a book as its check left it. What text and map hold afterwards is not said.
pub fn line_answer(
    dialect: Dialect,
    book: &Result<CheckedBook, Refusal>,
    compacts: Option<&CompactNames>,
    line: &[u8],
    text: &mut [u8],
    map: &mut [u16],
    slots: usize,
) -> Result<Reading, Refusal>
    requires { IfChecked book.now (option_copied compacts) }
    ensures { (bytes : List ℕ) → Judged bytes book.now
        → told result ≡ (line_call dialect.language dialect.prefix bytes line.now (length text.old) (length map.old) slots).answer }
{
    source::check_fit(line, text.len(), map.len())?;
    match book {
        Ok(book) => {
            let head = heading::head_of_fit(dialect, book, compacts, line, text, map, slots)?;
            let end = count_clauses(book, &text[..head.length], head.start, slots)?;
            Ok(heading::reading(head.name, end))
        }
        Err(refusal) => Err(*refusal),
    }
}
