// The whole line: from physical bytes to a directive's name and its clauses in order.
#![tactic(auto)]

pub mod checks;
pub mod heading;
mod line;
pub mod many;
pub mod opening;

ghost use Rattle.std.specs.Prelude.{◌≡◌, min, length};
ghost use Rattle.refusal.specs.Answer.{told};
ghost use Rattle.reader.specs.Calls.{LineCall, line_call, line_within};

use clause::records::zero_record;
use clause::{ClauseRecord, RecordArray};
pub use heading::Head;
use lexer::Dialect;
use refusal::Refusal;

// The reading of a line: the directive's entry and where its name stands, the number of clause records, and the place of the unread rest.
// Places are offsets of the joined text.
#[derive(Clone, Copy, Debug, PartialEq, Eq)]
pub struct Reading {
    pub entry: usize,
    pub name_start: usize,
    pub name_end: usize,
    pub count: usize,
    pub rest: usize,
}

// The whole line: joined into the lent text and map, its clauses in the lent record slots. Refusals 1 to 7, then 8 to 14 in reading order.
// A refusal zeroes all three.
pub fn read_line(
    dialect: Dialect,
    book: &[u8],
    line: &[u8],
    text: &mut [u8],
    map: &mut [u16],
    records: &mut [ClauseRecord],
) -> Result<Reading, Refusal>
    ensures { record { answer = told result; text = text.new; map = map.new; records = records.new }
        ≡ line_call dialect.language dialect.prefix book.now line.now (length text.old) (length map.old) (length records.old) }
{
    let result = line::read_up_to(dialect, book, line, text, map, records);
    if result.is_err() {
        text.fill(0);
        map.fill(0);
        records.fill(zero_record());
    }
    result
}

// The same over an array of records by value, of which so many slots are used: for callers that hold their records in a local. Beside `parse_sequence_array`: the
// call in it is all that differs, and a closure over the slots, with a contract for what it writes, would be no plainer.
pub fn read_line_array<const N: usize>(
    dialect: Dialect,
    book: &[u8],
    line: &[u8],
    text: &mut [u8],
    map: &mut [u16],
    slots: usize,
    mut records: [ClauseRecord; N],
) -> RecordArray<Reading, N>
    ensures { record { answer = told result.answer; text = text.new; map = map.new; records = result.records }
        ≡ line_within dialect.language dialect.prefix book.now line.now (length text.old) (length map.old) (min slots N) N }
{
    let used = slots.min(N);
    let lent = &mut records[..];
    let answer = read_line(dialect, book, line, text, map, &mut lent[..used]);
    lent[used..].fill(zero_record());
    RecordArray { answer, records }
}
