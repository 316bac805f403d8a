// Validation of a logical line: each end of line that more text follows must be continued.
#![tactic(auto)]

ghost use Rattle.std.specs.Prelude.{◌≡◌, reverse, ◌+◌, ◌-◌, ◌<◌, ◌≤◌, length, take, drop, ltb, IfSome};
ghost use Rattle.ascii.specs.Text.{starts, is_in_line};
ghost use Rattle.validation.specs.declared.Quoting.TheVariants.{Outside};
ghost use Rattle.validation.specs.Validation.{opened as opened_by, after_byte, is_inside, code_length, ends_in, unindented, continued_f, continued as continued_in, foreign_f, foreign as foreign_in, eol_bytes, check_end, check_line, fault, blank_from, Onward};

use ascii::sets::{Blank, ByteSet, Trimmed};
use lexer::{Dialect, Language, Prefix, continuation};

// All but LF and CR. By two comparisons and not by the class, as `ascii::sets::InLine`: two given bytes are sought, and by sixteens.
struct OnLine;

impl ByteSet for OnLine {
    ghost holds = { is_in_line };

    fn has(b: u8) -> bool {
        (b != b'\n') & (b != b'\r')
    }
}

// What a physical line, with all that follows it, says of the whole: all is well, a fault at a place,
// or well as far as the next physical line, so many bytes on. No Result of an Option: the search answers with the fault, so that its `?` would turn an error
// into an answer.
#[derive(Clone, Copy, Debug, PartialEq, Eq)]
pub enum Checked {
    Fine,
    WrongAt(usize),
    Next(usize),
}

// Where the scan of a physical line stands: outside of literals, inside one with its quote, or after a quote in one that
// may be the first of two.
#[derive(Clone, Copy, Debug, PartialEq, Eq)]
pub enum Quoting {
    Outside,
    Inside(u8),
    Closing(u8),
}

impl Quoting {
    // A quote opens a literal.
    fn opened(b: u8) -> Quoting
        ensures { result ≡ opened_by b }
    {
        match b {
            b'\'' | b'"' => Quoting::Inside(b),
            _ => Quoting::Outside,
        }
    }

    // Where the scan stands after a byte.
    fn after(self, b: u8) -> Quoting
        ensures { result ≡ after_byte self b }
    {
        match self {
            Quoting::Inside(q) if b == q => Quoting::Closing(q),
            Quoting::Closing(q) if b == q => Quoting::Inside(q),
            Quoting::Inside(q) => Quoting::Inside(q),
            Quoting::Outside | Quoting::Closing(_) => Quoting::opened(b),
        }
    }

    fn is_inside(self) -> bool
        ensures { result ≡ is_inside self }
    {
        matches!(self, Quoting::Inside(_))
    }
}

// How many bytes of a physical line are code: up to its comment, or all.
fn code_length(line: &[u8]) -> usize
    ensures value { result ≡ code_length Outside line.now }
    ensures within { result ≤ length line.now }
{
    let mut quoting = Quoting::Outside;
    for (i, b) in line.iter().enumerate() {
        if *b == b'!' && !quoting.is_inside() {
            return i;
        }
        quoting = quoting.after(*b);
    }
    line.len()
}

// Whether this is the last byte.
fn is_last(b: u8, text: &[u8]) -> bool
    requires { 0 < b }
    ensures { result ≡ starts b (reverse text.now) }
{
    matches!(text, [.., last] if *last == b)
}

// Whether the last byte that trimming leaves is `&`.
fn ends_in_marker(text: &[u8]) -> bool
    ensures { result ≡ ends_in 38 text.now }
{
    is_last(b'&', &text[..ascii::run_start::<Trimmed>(text)])
}

// A physical line without its indentation.
fn unindented(line: &[u8]) -> &[u8]
    ensures { result.now ≡ unindented line.now }
{
    &line[ascii::run_end::<Blank>(line, 0)..]
}

// Whether a physical line of Fortran is continued: its code, without indentation and sentinel, ends in `&`.
#[tactic(auto, unfolding(crate::specs::Validation::continued_f))]
fn continued_f(prefix: Prefix, line: &[u8]) -> bool
    ensures { result ≡ continued_f prefix line.now }
{
    let rest = unindented(line);
    let content = &rest[continuation::sentinel_ended(rest, prefix).unwrap_or(0)..];
    ends_in_marker(&content[..code_length(content)])
}

// Whether a physical line is continued.
fn continued(dialect: Dialect, line: &[u8]) -> bool
    ensures { result ≡ continued_in dialect.language dialect.prefix line.now }
{
    match dialect.language {
        Language::C => is_last(b'\\', line),
        Language::FortranFree | Language::FortranFixed => continued_f(dialect.prefix, line),
    }
}

// Whether a physical line of Fortran begins with the other prefix's sentinel.
fn foreign_f(prefix: Prefix, line: &[u8]) -> bool
    ensures { result ≡ foreign_f prefix line.now }
{
    let rest = unindented(line);
    // mostly its own stands there, and the other's is not asked for
    continuation::sentinel_ended(rest, prefix).is_none()
        && continuation::sentinel_any(rest).is_some()
}

fn foreign(dialect: Dialect, line: &[u8]) -> bool
    ensures { result ≡ foreign_in dialect.language dialect.prefix line.now }
{
    match dialect.language {
        Language::C => false,
        Language::FortranFree | Language::FortranFixed => foreign_f(dialect.prefix, line),
    }
}

// The bytes of the end of line that a text begins with; none of a lone CR, which the lexer's `eol` counts and which is a fault here. One function for both
// would need a flag, and be no plainer.
fn eol_bytes(rest: &[u8]) -> Option<usize>
    ensures value { result ≡ eol_bytes rest.now }
    ensures within { IfSome result (λ n. (0 < n) × (n ≤ length rest.now)) }
{
    match rest {
        [] => None,
        [b'\r', b'\n', ..] => Some(2),
        [b'\r', ..] => None,
        _ => Some(1),
    }
}

// A logical line in its dialect, and the place from which on it is blank, which is found once, so that all is one pass.
#[derive(Clone, Copy)]
struct Line<'a> {
    dialect: Dialect,
    text: &'a [u8],
    tail: usize,
    ghost tail_found: { tail ≡ blank_from text.now },
}

impl Line<'_> {
    // What follows the physical line from a place to its end: nothing, a lone CR, a blank tail, or more text.
    fn check_end(&self, at: usize, end: usize) -> Checked
        requires { (at ≤ end) × (end ≤ length self.now.text.now) }
        ensures value { result ≡ check_end self.now.dialect.language self.now.dialect.prefix at (take (end - at) (drop at self.now.text.now)) (drop end self.now.text.now) }
        ensures onward { Onward at (length self.now.text.now) result }
    {
        if end == self.text.len() {
            return Checked::Fine;
        }
        let Some(n) = eol_bytes(&self.text[end..]) else {
            return Checked::WrongAt(end);
        };
        if self.tail <= end + n {
            return Checked::Fine;
        }
        if continued(self.dialect, &self.text[at..end]) {
            Checked::Next(end - at + n)
        } else {
            Checked::WrongAt(end)
        }
    }

    // The physical line at a place, with all that follows it.
    fn check(&self, at: usize) -> Checked
        requires { at ≤ length self.now.text.now }
        ensures value { result ≡ check_line self.now.dialect.language self.now.dialect.prefix (ltb 0 at) at (drop at self.now.text.now) }
        ensures onward { Onward at (length self.now.text.now) result }
    {
        let end = ascii::long_run_end::<OnLine>(self.text, at);
        if 0 < at && foreign(self.dialect, &self.text[at..end]) {
            return Checked::WrongAt(ascii::run_end::<Blank>(self.text, at));
        }
        self.check_end(at, end)
    }
}

// Where a logical line first breaks the rule of its language.
pub fn validate_logical_line(dialect: Dialect, line: &[u8]) -> Option<usize>
    ensures { result ≡ fault dialect.language dialect.prefix line.now }
{
    let whole = Line {
        dialect,
        text: line,
        tail: ascii::run_start::<Trimmed>(line),
    };
    let mut at = 0;
    // by physical lines
    while at < line.len() {
        match whole.check(at) {
            Checked::Fine => return None,
            Checked::WrongAt(place) => return Some(place),
            Checked::Next(n) => at += n,
        }
    }
    None
}
