// Bytes and texts: classes of bytes, runs, trimming, comparing at a place.
#![tactic(auto)]

pub mod class;
pub mod sets;

ghost use Rattle.std.specs.Prelude.{◌≡◌, reverse, ◌++◌, ◌+◌, ◌-◌, ◌≤◌, length, take, drop, get_or, eqb};
ghost use Rattle.ascii.specs.Ascii.{is_trimmed, is_low};
ghost use Rattle.ascii.specs.Text.{leading, all_from, past, trimmed, LentPart, trim_call, begins, first_high, comparing};

use sets::{ByteSet, Low, Trimmed};

// A range of a text: the place of its first byte and the place after its last.
#[derive(Clone, Copy, Debug, PartialEq, Eq)]
pub struct Range {
    pub start: usize,
    pub end: usize,
}

// The byte at a place, and 0 past the end, which no rule asks for: the definitions read a text so too, and a caller compares the byte with no Option around it.
pub fn byte_at(text: &[u8], at: usize) -> u8
    ensures { result ≡ get_or text.now at 0 }
{
    if at < text.len() { text[at] } else { 0 }
}

// The end of the run of a set's bytes that starts at a place. Places are plain numbers in all crates, with their bound in each contract: a struct of a text and
// a place would be made anew at each step of a walk.
pub fn run_end<S: ByteSet>(text: &[u8], from: usize) -> usize
    requires { from ≤ length text.now }
    ensures value { result ≡ from + leading S.holds (drop from text.now) }
    ensures lower_bound { (from ≤ result) × (result ≤ length text.now) }
{
    match text[from..].iter().position(|b| !S::has(*b)) {
        Some(n) => from + n,
        None => text.len(),
    }
}

// The end of the run of a set's bytes that starts at a place, with the byte behind it if there is one.
pub fn past_run<S: ByteSet>(text: &[u8], from: usize) -> usize
    requires { from ≤ length text.now }
    ensures value { result ≡ from + past S.holds (drop from text.now) }
    ensures lower_bound { (from ≤ result) × (result ≤ length text.now) }
{
    let end = run_end::<S>(text, from);
    if end < text.len() { end + 1 } else { end }
}

// The place from which on a text has bytes of a set alone: behind the last that is none.
pub fn run_start<S: ByteSet>(text: &[u8]) -> usize
    ensures value { result ≡ length text.now - leading S.holds (reverse text.now) }
    ensures within { result ≤ length text.now }
{
    match text.iter().rposition(|b| !S::has(*b)) {
        Some(i) => i + 1,
        None => 0,
    }
}

// The range that trimming leaves; of a blank text the empty one at its start.
pub fn trim_range(text: &[u8]) -> Range
    ensures value { result ≡ trimmed 0 text.now }
    ensures start_le_end { (result.start ≤ result.end) × (result.end ≤ length text.now) }
{
    let start = run_end::<Trimmed>(text, 0);
    if start == text.len() {
        return Range { start: 0, end: 0 };
    }
    let end = run_start::<Trimmed>(text);
    Range { start, end }
}

// The trimmed text, a part of the caller's own.
pub fn trim(text: &[u8]) -> &[u8]
    ensures { record { at = result.ref_ptr; bytes = result.now } ≡ trim_call text.entry.ref_ptr text.now }
{
    let range = trim_range(text);
    &text[range.start..range.end]
}

// The range that trimming leaves of a part of a text, in places of the text.
pub fn trim_between(text: &[u8], start: usize, end: usize) -> Range
    requires { (start ≤ end) × (end ≤ length text.now) }
    ensures value { result ≡ trimmed start (take (end - start) (drop start text.now)) }
    ensures start_le_start { (start ≤ result.start) × ((result.start ≤ result.end) × (result.end ≤ end)) }
{
    let range = trim_range(&text[start..end]);
    Range {
        start: start + range.start,
        end: start + range.end,
    }
}

// Whether two bytes are the same, with case ignored or not. Bytes that are equal need no fold.
pub fn same_byte(a: u8, b: u8, ignore_case: bool) -> bool
    ensures { result ≡ eqb (comparing ignore_case a) (comparing ignore_case b) }
{
    if a == b {
        return true;
    }
    if !ignore_case {
        return false;
    }
    class::fold(a) == class::fold(b)
}

// Whether a word stands at a place of a text.
pub fn begins_at(text: &[u8], at: usize, word: &[u8], ignore_case: bool) -> bool
    requires { at ≤ length text.now }
    ensures { result ≡ begins (comparing ignore_case) word.now (drop at text.now) }
{
    let rest = &text[at..];
    word.len() <= rest.len()
        && word
            .iter()
            .zip(rest)
            .all(|(a, b)| same_byte(*a, *b, ignore_case))
}

// Whether the eight bytes of a text from a place on are of a set whose question is a mere comparison: one branch for all. They are written out, as an `all` over
// them would have a branch for each.
fn eight<S: ByteSet>(text: &[u8], at: usize) -> bool
    requires { at + 8 ≤ length text.now }
    ensures { result ≡ all_from S.holds text.now at 7 }
{
    S::has(text[at])
        & S::has(text[at + 1])
        & S::has(text[at + 2])
        & S::has(text[at + 3])
        & S::has(text[at + 4])
        & S::has(text[at + 5])
        & S::has(text[at + 6])
        & S::has(text[at + 7])
}

// What `run_end` gives, for a long run of such a set: by sixteens, and by eight where sixteen are too many.
pub fn long_run_end<S: ByteSet>(text: &[u8], from: usize) -> usize
    requires { from ≤ length text.now }
    ensures value { result ≡ from + leading S.holds (drop from text.now) }
    ensures lower_bound { (from ≤ result) × (result ≤ length text.now) }
{
    let mut i = from;
    while i + 16 <= text.len() && eight::<S>(text, i) & eight::<S>(text, i + 8) {
        i += 16;
    }
    if i + 8 <= text.len() && eight::<S>(text, i) {
        i += 8;
    }
    run_end::<S>(text, i)
}

// Where a run of low bytes is still going on, by thirty-two from the start of a text.
fn low_run(text: &[u8]) -> usize
    ensures within { result ≤ length text.now }
    ensures run { result + leading is_low (drop result text.now) ≡ leading is_low text.now }
{
    let mut i = 0;
    while i + 32 <= text.len() {
        let all = eight::<Low>(text, i)
            & eight::<Low>(text, i + 8)
            & eight::<Low>(text, i + 16)
            & eight::<Low>(text, i + 24);
        if !all {
            break;
        }
        i += 32;
    }
    i
}

// The first byte above 127.
pub fn first_high(text: &[u8]) -> Option<usize>
    ensures { result ≡ first_high 0 text.now }
{
    let low = long_run_end::<Low>(text, low_run(text));
    if low < text.len() { Some(low) } else { None }
}
