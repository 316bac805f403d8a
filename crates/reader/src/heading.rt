// The head of a line: checks, joining, opening words, name. The clauses start behind it.
ghost use Rattle.std.specs.Prelude.{◌≡◌, ◌≤◌, length};
ghost use Rattle.std.specs.Option.{option_copied};
ghost use Rattle.refusal.specs.Answer.{told, and_then, max_length};
ghost use Rattle.refusal.specs.Verdict.{fine};
ghost use Rattle.rulebook.specs.Book.{book_of};
ghost use Rattle.directive.specs.Name.{name_at};
ghost use Rattle.directive.specs.Compacts.{IfCompacts};
ghost use Rattle.reader.specs.Line.{opening as opening_of, parsed};
ghost use Rattle.source.specs.Verdicts.{fit_verdict};
ghost use Rattle.reader.specs.Steps.{Heads, HeadGives, answered};

use crate::{Reading, checks, opening};
use clause::{SequenceEnd, SequenceState};
use directive::DirectiveName;
use directive::compacts::CompactNames;
use lexer::Dialect;
use refusal::Refusal;
use rulebook::CheckedBook;
use source::joining;

// What stands once the name is read: the name, the length of the joined text, and where the clauses start.
#[derive(Clone, Copy)]
pub struct Head {
    pub name: DirectiveName,
    pub length: usize,
    pub start: SequenceState,
}

// The name behind the opening words of a joined text.
fn read_name(
    dialect: Dialect,
    book: &CheckedBook,
    compacts: Option<&CompactNames>,
    text: &[u8],
) -> Result<DirectiveName, Refusal>
    requires { IfCompacts (book_of book.now.bytes.now) (option_copied compacts) }
    ensures { told result ≡ and_then (opening_of dialect.language dialect.prefix text.now) (name_at (book_of book.now.bytes.now) text.now) }
{
    let cursor = opening::opening(dialect, text)?;
    directive::lex_name(&book.directive_book(), compacts, text, cursor.at)
}

// The head of a joined text, with so many slots for its clauses.
fn head_of(
    dialect: Dialect,
    book: &CheckedBook,
    compacts: Option<&CompactNames>,
    text: &[u8],
    slots: usize,
) -> Result<Head, Refusal>
    requires short { length text.now ≤ max_length }
    requires made { IfCompacts (book_of book.now.bytes.now) (option_copied compacts) }
    ensures { Heads book.now.bytes.now text.now slots (parsed (book_of book.now.bytes.now) dialect.language dialect.prefix slots text.now) result }
{
    let name = read_name(dialect, book, compacts, text)?;
    Ok(Head {
        name,
        length: text.len(),
        start: SequenceState::start_at(book, text, name.end, slots),
    })
}

// The head of a line that fits its buffers: refusals 5 to 9, and the joined text with its map at the front of their slots.
pub(crate) fn head_of_fit(
    dialect: Dialect,
    book: &CheckedBook,
    compacts: Option<&CompactNames>,
    line: &[u8],
    text: &mut [u8],
    map: &mut [u16],
    slots: usize,
) -> Result<Head, Refusal>
    requires made { IfCompacts (book_of book.now.bytes.now) (option_copied compacts) }
    requires fits { fit_verdict line.now (length text.old) (length map.old) ≡ fine }
    ensures { HeadGives dialect.language dialect.prefix book.now.bytes.now line.now slots text.new map.new result }
{
    checks::check_line(dialect, book.header.ignores_case, line)?;
    let n = joining::join_into(dialect.language, line, text, map);
    head_of(dialect, book, compacts, &text[..n], slots)
}

// The reading of a line, once its clauses are read.
pub fn reading(name: DirectiveName, clauses: SequenceEnd) -> Reading
    ensures { result ≡ answered name clauses }
{
    Reading {
        entry: name.entry,
        name_start: name.start,
        name_end: name.end,
        count: clauses.count,
        rest: clauses.rest,
    }
}
