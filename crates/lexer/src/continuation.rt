// Continuations of a physical line: the break of C, and Fortran's `&` with what goes of the next line. A function of the rest of a text answers with how
// many of its first bytes are meant: nothing where what it seeks is absent, or 0 where each caller adds the number as it is.
ghost use Rattle.std.specs.Prelude.{◌≡◌, true, ◌+◌, ◌≤◌, length, drop, get_or, IfSome};
ghost use Rattle.ascii.specs.Text.{begins, comparing};
ghost use Rattle.lexer.specs.Continuation.{if_any, prefix_bytes, break_c, marked, sentinel as sentinel_of, opening_sentinel, is_boundary, sentinel_ended, sentinel_any, eol as eol_of, comment_f, marker as marker_of, lead as lead_of, break_f, Unended};

use super::{Dialect, Language, Prefix};
use ascii::class::fold;
use ascii::sets::{Blank, InLine};

// The break of C: a backslash with LF or CR LF.
#[tactic(auto, unfolding(crate::specs::Continuation::break_c))]
pub fn break_c(rest: &[u8]) -> Option<usize>
    ensures value { result ≡ if_any (break_c rest.now) }
    ensures within { IfSome result (λ n. n ≤ length rest.now) }
{
    match rest {
        [b'\\', b'\n', ..] => Some(2),
        [b'\\', b'\r', b'\n', ..] => Some(3),
        _ => None,
    }
}

// Whether a text begins with the prefix.
pub fn prefix_at(rest: &[u8], prefix: Prefix, ignore_case: bool) -> bool
    ensures { result ≡ begins (comparing ignore_case) (prefix_bytes prefix) rest.now }
{
    ascii::begins_at(rest, 0, prefix.bytes(), ignore_case)
}

// Whether a text begins with `!$`, `c$` or `*$`. Case is ignored by the fold, as everywhere.
fn is_marked(rest: &[u8]) -> bool
    ensures { result ≡ marked rest.now }
{
    match rest {
        [first, b'$', ..] => matches!(fold(*first), b'!' | b'c' | b'*'),
        _ => false,
    }
}

// The sentinel, with the prefix or alone.
#[tactic(auto, unfolding(crate::specs::Continuation::sentinel))]
pub fn sentinel(rest: &[u8], prefix: Prefix) -> Option<usize>
    ensures value { result ≡ if_any (sentinel_of prefix rest.now) }
    ensures within { IfSome result (λ n. n ≤ length rest.now) }
{
    if !is_marked(rest) {
        return None;
    }
    if prefix_at(&rest[2..], prefix, true) {
        Some(5)
    } else {
        Some(2)
    }
}

// The sentinel that a line begins with, in its language.
pub fn opening_sentinel(rest: &[u8], dialect: Dialect) -> Option<usize>
    ensures value { result ≡ if_any (opening_sentinel dialect.language dialect.prefix rest.now) }
    ensures within { IfSome result (λ n. n ≤ length rest.now) }
{
    match dialect.language {
        Language::C => None,
        Language::FortranFree if !matches!(rest, [b'!', ..]) => None,
        Language::FortranFree | Language::FortranFixed => sentinel(rest, dialect.prefix),
    }
}

// Whether a text is over, or begins with a blank, `&` or an end of line.
fn is_boundary(rest: &[u8]) -> bool
    ensures { result ≡ is_boundary rest.now }
{
    matches!(rest, [] | [b' ' | b'\t' | b'&' | b'\n' | b'\r', ..])
}

// The sentinel, if a boundary follows it.
#[tactic(auto, unfolding(crate::specs::Continuation::sentinel_ended))]
pub fn sentinel_ended(rest: &[u8], prefix: Prefix) -> Option<usize>
    ensures value { result ≡ if_any (sentinel_ended prefix rest.now) }
    ensures within { IfSome result (λ n. n ≤ length rest.now) }
{
    let n = sentinel(rest, prefix)?;
    if is_boundary(&rest[n..]) {
        Some(n)
    } else {
        None
    }
}

// The sentinel of either prefix, the longer.
#[tactic(auto, unfolding(crate::specs::Continuation::sentinel_any))]
pub fn sentinel_any(rest: &[u8]) -> Option<usize>
    ensures value { result ≡ if_any (sentinel_any rest.now) }
    ensures within { IfSome result (λ n. n ≤ length rest.now) }
{
    match (
        sentinel_ended(rest, Prefix::Omp),
        sentinel_ended(rest, Prefix::Acc),
    ) {
        (Some(omp), Some(acc)) => Some(omp.max(acc)),
        (omp, acc) => omp.or(acc),
    }
}

// The end of line: LF, CR LF or a lone CR.
#[tactic(auto, unfolding(crate::specs::Continuation::eol))]
fn eol(rest: &[u8]) -> Option<usize>
    ensures value { result ≡ if_any (eol_of rest.now) }
    ensures within { IfSome result (λ n. n ≤ length rest.now) }
{
    match rest {
        [b'\r', b'\n', ..] => Some(2),
        [b'\n' | b'\r', ..] => Some(1),
        _ => None,
    }
}

// The comment of Fortran, without its end of line: 0 bytes where there is none, which callers add.
#[tactic(auto, unfolding(crate::specs::Continuation::comment_f))]
fn comment_f(rest: &[u8]) -> usize
    ensures value { result ≡ comment_f rest.now }
    ensures within { result ≤ length rest.now }
{
    match rest {
        [b'!', ..] => ascii::run_end::<InLine>(rest, 0),
        _ => 0,
    }
}

// Blanks with `&` behind them: 0 bytes where there are none, which callers add.
#[tactic(auto, unfolding(crate::specs::Continuation::marker))]
fn marker(rest: &[u8]) -> usize
    ensures value { result ≡ marker_of rest.now }
    ensures within { result ≤ length rest.now }
{
    let blanks = ascii::run_end::<Blank>(rest, 0);
    match &rest[blanks..] {
        [b'&', ..] => blanks + 1,
        _ => 0,
    }
}

// What goes at the start of a line that continues another: indentation, sentinel and leading `&`, 0 bytes or more, which callers add.
#[tactic(auto, unfolding(crate::specs::Continuation::lead))]
fn lead(rest: &[u8]) -> usize
    ensures value { result ≡ lead_of rest.now }
    ensures within { result ≤ length rest.now }
{
    let indented = ascii::run_end::<Blank>(rest, 0);
    match sentinel_any(&rest[indented..]) {
        Some(n) => {
            let end = indented + n;
            end + marker(&rest[end..])
        }
        None => marker(rest),
    }
}

// The continuation of Fortran of a text that begins with `&`.
#[inline(never)]
#[tactic(auto, unfolding(crate::specs::Continuation::break_f))]
fn marked_break(rest: &[u8]) -> Option<usize>
    requires { (1 ≤ length rest.now) × (get_or rest.now 0 0 ≡ 38) }
    ensures value { result ≡ if_any (break_f rest.now) }
    ensures within { IfSome result (λ n. n ≤ length rest.now) }
{
    let blanks = ascii::run_end::<Blank>(rest, 1);
    let stop = blanks + comment_f(&rest[blanks..]);
    let next = stop + eol(&rest[stop..])?;
    Some(next + lead(&rest[next..]))
}

// The continuation of Fortran. Apart from what follows an `&`, so that the compiler draws this question into the loops that ask it of each byte.
#[tactic(auto, unfolding(crate::specs::Continuation::break_f))]
pub fn break_f(rest: &[u8]) -> Option<usize>
    ensures value { result ≡ if_any (break_f rest.now) }
    ensures within { IfSome result (λ n. n ≤ length rest.now) }
{
    match rest {
        [b'&', ..] => marked_break(rest),
        _ => None,
    }
}

// A text and a place from which on no line ends, so that no continuation begins from there on: the comments behind a row of `&` are not walked to the end of
// the text for each of them.
#[derive(Clone, Copy)]
pub struct Lines<'a> {
    pub text: &'a [u8],
    ends: usize,
    ghost unended: { Unended text.now ends },
}

impl<'a> Lines<'a> {
    // The place is behind the last end of line.
    pub fn sought(text: &'a [u8]) -> Lines<'a>
        ensures { result.text.now ≡ text.now }
    {
        Lines {
            text,
            ends: ascii::run_start::<InLine>(text),
        }
    }

    // The place is the text's end, which is such a place too, so that no state says whether it was sought.
    pub fn unsought(text: &'a [u8]) -> Lines<'a>
        ensures { result.text.now ≡ text.now }
    {
        Lines {
            text,
            ends: text.len(),
        }
    }

    // Seeks the place once, where the first `&` stands. Where the text ends in an end of line the search is over at once.
    pub fn seek_at(&mut self, at: usize)
        ensures { self.new.text.now ≡ self.old.text.now }
    {
        if self.ends == self.text.len() && ascii::byte_at(self.text, at) == b'&' {
            *self = Lines::sought(self.text);
        }
    }

    // The continuation of Fortran at a place.
    pub fn break_f(&self, at: usize) -> Option<usize>
        requires { at ≤ length self.now.text.now }
        ensures value { result ≡ if_any (break_f (drop at self.now.text.now)) }
        ensures within { IfSome result (λ n. at + n ≤ length self.now.text.now) }
    {
        if self.ends <= at {
            return None;
        }
        break_f(&self.text[at..])
    }
}
