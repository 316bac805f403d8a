// One logical line of several physical ones: joining with its byte map, map-back, content copy.
#![tactic(auto)]

pub mod joining;
mod runs;

ghost use Rattle.std.specs.Prelude.{◌≡◌, length};
ghost use Rattle.refusal.specs.Answer.{told};
ghost use Rattle.source.specs.Calls.{is_short, join_call, span_answer, copy_call};
ghost use Rattle.source.specs.Verdicts.{fit_verdict, lines_verdict, join_verdict, copy_verdict};

use ascii::Range;
use lexer::Dialect;
use refusal::{Reason, Refusal};

// Whether the text or the map has too few slots for a line.
pub fn is_short(line: &[u8], text_slots: usize, map_slots: usize) -> bool
    ensures { result ≡ is_short line.now text_slots map_slots }
{
    text_slots < line.len() || map_slots < line.len() + 1
}

// Refusals 1 to 3: the line's length and bytes, and the slots.
#[tactic(auto, unfolding(crate::specs::Verdicts::fit_verdict))]
pub fn check_fit(line: &[u8], text_slots: usize, map_slots: usize) -> Result<(), Refusal>
    ensures { result ≡ fit_verdict line.now text_slots map_slots }
{
    refusal::check_text(line)?;
    if is_short(line, text_slots, map_slots) {
        return Err(Reason::ShortBuffer.at(0));
    }
    Ok(())
}

// Refusal 6: the physical lines.
pub fn check_lines(dialect: Dialect, line: &[u8]) -> Result<(), Refusal>
    ensures { result ≡ lines_verdict dialect.language dialect.prefix line.now }
{
    match validation::validate_logical_line(dialect, line) {
        None => Ok(()),
        Some(place) => Err(Reason::InvalidLine.at(place)),
    }
}

#[tactic(auto, unfolding(crate::specs::Verdicts::join_verdict))]
fn judge_join(
    dialect: Dialect,
    line: &[u8],
    text_slots: usize,
    map_slots: usize,
) -> Result<(), Refusal>
    ensures { result ≡ join_verdict dialect.language dialect.prefix line.now text_slots map_slots }
{
    check_fit(line, text_slots, map_slots)?;
    check_lines(dialect, line)
}

// Join alone: the text of a logical line and its map, each at the front of its slots and zeros behind, and the text's length;
// on a refusal all slots are zero. Text and map are two parameters, here and wherever they are lent: the calls for C lend them apart, and a struct of both
// would be taken apart at once.
pub fn join_line(
    dialect: Dialect,
    line: &[u8],
    text: &mut [u8],
    map: &mut [u16],
) -> Result<usize, Refusal>
    ensures { record { answer = told result; text = text.new; map = map.new } ≡ join_call dialect.language dialect.prefix line.now (length text.old) (length map.old) }
{
    if let Err(why) = judge_join(dialect, line, text.len(), map.len()) {
        text.fill(0);
        map.fill(0);
        return Err(why);
    }
    let n = joining::join_into(dialect.language, line, text, map);
    text[n..].fill(0);
    map[n + 1..].fill(0);
    Ok(n)
}

// Map-back: the physical places of the two ends of a joined range.
#[tactic(auto, unfolding(crate::specs::Calls::span_answer))]
pub fn map_back(map: &[u16], text_len: usize, start: usize, end: usize) -> Result<Range, Refusal>
    ensures { told result ≡ span_answer map.now text_len start end }
{
    if refusal::MAX_LENGTH < text_len {
        return Err(Reason::TooLong.at(refusal::MAX_LENGTH));
    }
    if map.len() < text_len + 1 {
        return Err(Reason::ShortBuffer.at(0));
    }
    if end < start || text_len < end {
        return Err(Reason::BadSpan.at(0));
    }
    Ok(Range {
        start: usize::from(map[start]),
        end: usize::from(map[end]),
    })
}

// Refusals 1 to 3 of a copy. Beside `check_fit`: which slots are short is all that differs, and a closure for it would be no plainer.
#[tactic(auto, unfolding(crate::specs::Verdicts::copy_verdict))]
fn judge_copy(content: &[u8], slots: usize) -> Result<(), Refusal>
    ensures { result ≡ copy_verdict content.now slots }
{
    refusal::check_text(content)?;
    if slots < content.len() {
        return Err(Reason::ShortBuffer.at(0));
    }
    Ok(())
}

// Content copy: a clause's content without the continuations of either language, zeros behind, and its length; on a refusal all zeros.
pub fn copy_content(content: &[u8], copy: &mut [u8]) -> Result<usize, Refusal>
    ensures { record { answer = told result; copy = copy.new } ≡ copy_call content.now (length copy.old) }
{
    if let Err(why) = judge_copy(content, copy.len()) {
        copy.fill(0);
        return Err(why);
    }
    let n = joining::copy_into(content, copy);
    copy[n..].fill(0);
    Ok(n)
}
