// Joining: each continuation goes, every other byte is kept with its physical place.
ghost use Rattle.std.specs.Prelude.{◌≡◌, ◌+◌, ◌<◌, ◌≤◌, ◌++◌, map as list_map, length, take, drop, IfSome};
ghost use Rattle.refusal.specs.Answer.{max_length};
ghost use Rattle.lexer.specs.Continuation.{if_any};
ghost use Rattle.source.specs.Joining.{cut_of, byte_of, place_of, joined_text, joined_map, any_cut, collapsed};
ghost use Rattle.source.specs.Staying.{BeginsNone, staying};

use crate::runs;
use crate::runs::{PlainC, PlainF};
use ascii::sets::ByteSet;
use lexer::continuation::Lines;
use lexer::{Language, continuation};

// The bytes of the continuation of a language at a place of a text, if one stands there.
pub fn cut_at(language: Language, lines: &Lines<'_>, at: usize) -> Option<usize>
    requires { at ≤ length lines.now.text.now }
    ensures value { result ≡ if_any (cut_of language (drop at lines.now.text.now)) }
    ensures within { IfSome result (λ n. at + n ≤ length lines.now.text.now) }
{
    match language {
        Language::C => continuation::break_c(&lines.text[at..]),
        Language::FortranFree | Language::FortranFixed => lines.break_f(at),
    }
}

// The same of either language, for a copy: one asks a language, this asks both.
fn any_cut_at(lines: &Lines<'_>, at: usize) -> Option<usize>
    requires { at ≤ length lines.now.text.now }
    ensures value { result ≡ if_any (any_cut (drop at lines.now.text.now)) }
    ensures within { IfSome result (λ n. at + n ≤ length lines.now.text.now) }
{
    match continuation::break_c(&lines.text[at..]) {
        Some(gone) => Some(gone),
        None => lines.break_f(at),
    }
}

// A line with the place from which on no line ends; in C, where nothing asks for it, it is not sought.
fn lines_of<'a>(language: Language, line: &'a [u8]) -> Lines<'a>
    ensures { result.text.now ≡ line.now }
{
    match language {
        Language::C => Lines::unsought(line),
        Language::FortranFree | Language::FortranFixed => Lines::sought(line),
    }
}

// What `cut_at` gives, where no byte of a set begins a continuation: such a byte is answered by one comparison.
fn cut_but<S: ByteSet>(language: Language, lines: &Lines<'_>, at: usize) -> Option<usize>
    requires in_bounds { at < length lines.now.text.now }
    requires set { BeginsNone S.holds (cut_of language) }
    ensures value { result ≡ if_any (cut_of language (drop at lines.now.text.now)) }
    ensures within { IfSome result (λ n. at + n ≤ length lines.now.text.now) }
{
    if S::has(lines.text[at]) {
        return None;
    }
    cut_at(language, lines, at)
}

// Joins by bytes, from a place on until another: a byte that stays goes into the slots from one on with its place, a break goes. The next place and the next
// slot are returned.
fn join_bytes<S: ByteSet>(
    language: Language,
    lines: &Lines<'_>,
    from: usize,
    stop: usize,
    text: &mut [u8],
    map: &mut [u16],
    at: usize,
) -> (usize, usize)
    requires room { (at ≤ from) × ((length lines.now.text.now ≤ length text.old) × (length lines.now.text.now ≤ length map.old)) }
    requires in_bounds { (from ≤ stop) × (stop ≤ length lines.now.text.now) }
    requires line_len_bound { length lines.now.text.now ≤ max_length }
    requires set { BeginsNone S.holds (cut_of language) }
    ensures within { (stop ≤ result.0) × ((result.0 ≤ length lines.now.text.now) × (result.1 ≤ result.0)) }
    ensures text { take result.1 text.new ++ list_map byte_of (staying (cut_of language) lines.now.text.now result.0) ≡ take at text.old ++ list_map byte_of (staying (cut_of language) lines.now.text.now from) }
    ensures map { take result.1 map.new ++ list_map place_of (staying (cut_of language) lines.now.text.now result.0) ≡ take at map.old ++ list_map place_of (staying (cut_of language) lines.now.text.now from) }
{
    let mut i = from;
    let mut k = at;
    while i < stop {
        match cut_but::<S>(language, lines, i) {
            Some(gone) => i += gone,
            None => {
                text[k] = lines.text[i];
                map[k] = i as u16;
                k += 1;
                i += 1;
            }
        }
    }
    (i, k)
}

// Joins by the continuations of a language, which none of a set's bytes begins. Apart from `join_into`, so that the compiler makes a loop of its own for C and for
// Fortran, and no byte asks for the language.
fn join_by<S: ByteSet>(language: Language, line: &[u8], text: &mut [u8], map: &mut [u16]) -> usize
    requires line_len_bound { length line.now ≤ max_length }
    requires line_in_bounds { length line.now ≤ length text.old }
    requires line_in_bounds_2 { length line.now < length map.old }
    requires set { BeginsNone S.holds (cut_of language) }
    ensures within { result ≤ length line.now }
    ensures count { result ≡ length (joined_text language line.now) }
    ensures text { take result text.new ≡ joined_text language line.now }
    ensures map { take (result + 1) map.new ≡ joined_map language line.now }
{
    let mut i = 0;
    let mut k = 0;
    let lines = lines_of(language, line);
    let mut step = 4;
    // by a long run, or by bytes: a few behind a run, since most breaks stand alone, and then thirty-two, so that a text of many breaks does not often ask for a run
    while i < line.len() {
        if S::has(line[i]) && runs::is_long::<S>(line, i + 1) {
            let end = runs::keep_block::<S>(line, i, text, map, k);
            k += end - i;
            i = end;
            step = 4;
        } else {
            let stop = line.len().min(i + step);
            step = 32;
            let (next, kept) = join_bytes::<S>(language, &lines, i, stop, text, map, k);
            i = next;
            k = kept;
        }
    }
    map[k] = line.len() as u16;
    k
}

// Joins a line that fits, once over: the text and the map stand at the front of their slots, and the text's length is returned.
pub fn join_into(language: Language, line: &[u8], text: &mut [u8], map: &mut [u16]) -> usize
    requires line_len_bound { length line.now ≤ max_length }
    requires line_in_bounds { length line.now ≤ length text.old }
    requires line_in_bounds_2 { length line.now < length map.old }
    ensures within { result ≤ length line.now }
    ensures count { result ≡ length (joined_text language line.now) }
    ensures text { take result text.new ≡ joined_text language line.now }
    ensures map { take (result + 1) map.new ≡ joined_map language line.now }
{
    match language {
        Language::C => join_by::<PlainC>(language, line, text, map),
        Language::FortranFree | Language::FortranFixed => {
            join_by::<PlainF>(language, line, text, map)
        }
    }
}

// Copies a content that fits without the continuations of either language, once over; the copy's length is returned.
pub fn copy_into(content: &[u8], copy: &mut [u8]) -> usize
    requires { length content.now ≤ length copy.old }
    ensures within { result ≤ length content.now }
    ensures count { result ≡ length (collapsed content.now) }
    ensures copy { take result copy.new ≡ collapsed content.now }
{
    let mut i = 0;
    let mut k = 0;
    let mut lines = Lines::unsought(content);
    // by runs and breaks
    while i < content.len() {
        lines.seek_at(i);
        match any_cut_at(&lines, i) {
            Some(gone) => i += gone,
            None => {
                let run = &content[i..runs::plain_end(content, i + 1)];
                runs::copy_run(run, &mut copy[k..k + run.len()]);
                k += run.len();
                i += run.len();
            }
        }
    }
    k
}
