// Trivia between words: white space, continuations and comments of either language.
ghost use Rattle.std.specs.Prelude.{◌≡◌, ◌≤◌, not, length, IfSome};
ghost use Rattle.ascii.specs.Text.{up_to};
ghost use Rattle.lexer.specs.Continuation.{if_any};
ghost use Rattle.lexer.specs.Trivia.{is_line_feed, trivia_c, trivia_f, trivia_of, Stretch, no_trivia, skip as skip_of, Inside, Fits};

use crate::continuation;
use ascii::sets::ByteSet;
use refusal::{Reason, Refusal};

// All but LF.
struct BeforeFeed;

impl ByteSet for BeforeFeed {
    ghost holds = { λ b. not (is_line_feed b) };

    fn has(b: u8) -> bool {
        b != b'\n'
    }
}

// A comment without an end.
#[derive(Clone, Copy, Debug, PartialEq, Eq)]
struct NoEnd;

// The bytes up to the end of a line comment that a text begins inside of: LF is its last byte.
fn line_end(rest: &[u8]) -> usize
    ensures value { result ≡ up_to is_line_feed rest.now }
    ensures within { result ≤ length rest.now }
{
    ascii::past_run::<BeforeFeed>(rest, 0)
}

// The bytes of trivia of C that a text begins with, if any.
#[tactic(auto, unfolding(crate::specs::Trivia::trivia_c))]
fn trivia_c(rest: &[u8]) -> Result<Option<usize>, NoEnd>
    ensures value { Stretch (trivia_c rest.now) result }
    ensures fits { Fits (length rest.now) result }
{
    if let Some(gone) = continuation::break_c(rest) {
        return Ok(Some(gone));
    }
    match rest {
        [b, ..] if ascii::class::is_space(*b) => Ok(Some(1)),
        [b'/', b'*', ..] => Ok(Some(code::code::block_end(rest, 2).ok_or(NoEnd)?)),
        [b'/', b'/', comment @ ..] => Ok(Some(2 + line_end(comment))),
        _ => Ok(None),
    }
}

// The same of Fortran, where each comment ends with its line.
#[tactic(auto, unfolding(crate::specs::Trivia::trivia_f))]
fn trivia_f(rest: &[u8]) -> Option<usize>
    ensures value { result ≡ if_any (trivia_f rest.now) }
    ensures within { IfSome result (λ n. n ≤ length rest.now) }
{
    if let Some(gone) = continuation::break_f(rest) {
        return Some(gone);
    }
    match rest {
        [b, ..] if ascii::class::is_space(*b) => Some(1),
        [b'!', comment @ ..] => Some(1 + line_end(comment)),
        _ => None,
    }
}

// Of either language. `fortran` is bit 0 of a book, a bool in its header and in the definitions, here and wherever trivia is asked for.
fn trivia_of(rest: &[u8], fortran: bool) -> Result<Option<usize>, NoEnd>
    ensures value { Stretch (trivia_of fortran rest.now) result }
    ensures fits { Fits (length rest.now) result }
{
    if fortran {
        Ok(trivia_f(rest))
    } else {
        trivia_c(rest)
    }
}

// Whether no trivia of either language begins with a byte, by comparisons alone.
fn no_trivia(b: u8) -> bool
    ensures { result ≡ no_trivia b }
{
    (b' ' < b) & !((b == b'!') | (b == b'&') | (b == b'/') | (b == b'\\'))
}

// What `skip` gives, by a walk over the trivia.
#[inline(never)]
fn skip_all(text: &[u8], at: usize, fortran: bool) -> Result<usize, Refusal>
    requires { at ≤ length text.now }
    ensures value { result ≡ skip_of fortran text.now at }
    ensures inside { Inside at (length text.now) result }
{
    let mut i = at;
    // by a number of bytes that each stretch of trivia gives anew
    while i < text.len() {
        match trivia_of(&text[i..], fortran) {
            Ok(Some(n)) => i += n,
            Ok(None) => return Ok(i),
            Err(NoEnd) => return Err(Reason::UnclosedComment.at(i)),
        }
    }
    Ok(i)
}

// The place after all trivia from a place on; refused at a comment without an end. Mostly there is none, or one blank: this is asked apart from the walk, so
// that the compiler draws it into each caller.
pub fn skip(text: &[u8], at: usize, fortran: bool) -> Result<usize, Refusal>
    requires { at ≤ length text.now }
    ensures value { result ≡ skip_of fortran text.now at }
    ensures inside { Inside at (length text.now) result }
{
    if at == text.len() {
        return Ok(at);
    }
    if no_trivia(text[at]) {
        return Ok(at);
    }
    if text[at] == b' ' && no_trivia(ascii::byte_at(text, at + 1)) {
        return Ok(at + 1);
    }
    skip_all(text, at, fortran)
}
