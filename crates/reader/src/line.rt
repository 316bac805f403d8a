// The whole line as far as it is read: all that decides is in `checks`, `heading` and the clauses.
ghost use Rattle.std.specs.Prelude.{◌≡◌, length};
ghost use Rattle.reader.specs.Calls.{line_call};
ghost use Rattle.reader.specs.Steps.{Leaves};

use crate::{Reading, heading};
use clause::ClauseRecord;
use clause::records::read_clauses;
use lexer::Dialect;
use refusal::Refusal;
use rulebook::index::Index;

// On a refusal the slots hold what was written till then.
pub(crate) fn read_up_to(
    dialect: Dialect,
    book: &[u8],
    line: &[u8],
    text: &mut [u8],
    map: &mut [u16],
    records: &mut [ClauseRecord],
) -> Result<Reading, Refusal>
    ensures { Leaves (line_call dialect.language dialect.prefix book.now line.now (length text.old) (length map.old) (length records.old))
        text.new map.new records.new result }
{
    source::check_fit(line, text.len(), map.len())?;
    let mut index = Index::new();
    let book = rulebook::checked(book, &mut index)?;
    let head = heading::head_of_fit(dialect, &book, None, line, text, map, records.len())?;
    let end = read_clauses(&book, &text[..head.length], head.start, records)?;
    text[head.length..].fill(0);
    map[head.length + 1..].fill(0);
    Ok(heading::reading(head.name, end))
}
