// The form of a book, byte by byte.
ghost use Rattle.std.specs.Prelude.{◌≡◌, ◌-◌};
ghost use Rattle.bookform.specs.Format.{Rules, rule_for, is_known, is_header, is_length, clauses_left, directives_left, when_good, header_step, name_step, word_step, stepped, ended_at, bad_from};

use crate::passing::past_entries;
use crate::{ClauseRule, Expect, UnknownRule};
use ascii::class::is_word;

// The rule that a rule byte names; 4 to 255 name none.
impl TryFrom<u8> for ClauseRule {
    type Error = UnknownRule;

    ghost try_from_gives = { Rules };

    fn try_from(b: u8) -> Result<ClauseRule, UnknownRule> {
        match b {
            0 => Ok(ClauseRule::Bare),
            1 => Ok(ClauseRule::Parenthesized),
            2 => Ok(ClauseRule::Flexible),
            3 => Ok(ClauseRule::Unsupported),
            4..=255 => Err(UnknownRule(b)),
        }
    }
}

pub fn is_rule(b: u8) -> bool
    ensures { result ≡ is_known (rule_for b) }
{
    ClauseRule::try_from(b).is_ok()
}

// Whether a byte may stand at a place of the header.
pub fn is_header(i: usize, b: u8) -> bool
    ensures { result ≡ is_header i b }
{
    let mark = b"DRB";
    if i < 3 {
        return mark[i] == b;
    }
    match i {
        3 => b == 0,
        4 => b == 1,
        5 => b < 4,
        6 => is_rule(b),
        _ => 1 <= b,
    }
}

pub fn is_length(b: u8) -> bool
    ensures { result ≡ is_length b }
{
    (1 <= b) & (b <= 64)
}

pub fn clauses_left(c: usize) -> Expect
    ensures { result ≡ clauses_left c }
{
    if c == 0 {
        return Expect::End;
    }
    Expect::Rule(c - 1)
}

pub fn directives_left(d: usize, c: usize) -> Expect
    ensures { result ≡ directives_left d c }
{
    if d == 0 {
        return clauses_left(c);
    }
    Expect::DirectiveLength(d - 1, c)
}

fn header_step(i: usize, b: u8) -> Option<Expect>
    ensures { result ≡ header_step i b }
{
    let next = if i < 7 {
        Expect::HeaderByte(i + 1)
    } else {
        Expect::ClauseCount(usize::from(b))
    };
    is_header(i, b).then_some(next)
}

// A length byte says how many bytes of the name come after its first.
fn less_one(b: u8) -> usize
    ensures { result ≡ b - 1 }
{
    usize::from(b.saturating_sub(1))
}

fn name_step(n: usize, after_word: bool, d: usize, c: usize, b: u8) -> Option<Expect>
    ensures { result ≡ name_step n after_word d c b }
{
    let word = is_word(b);
    if n == 0 {
        return word.then_some(directives_left(d, c));
    }
    (word | (b == b' ') & after_word).then_some(Expect::DirectiveName(n - 1, word, d, c))
}

fn word_step(n: usize, c: usize, b: u8) -> Option<Expect>
    ensures { result ≡ word_step n c b }
{
    let word = is_word(b);
    if n == 0 {
        return word.then_some(clauses_left(c));
    }
    word.then_some(Expect::ClauseName(n - 1, c))
}

// What is waited for after a byte; nothing if the byte is bad.
fn step(e: Expect, b: u8) -> Option<Expect>
    ensures { result ≡ stepped e b }
{
    match e {
        Expect::HeaderByte(i) => header_step(i, b),
        Expect::ClauseCount(d) => Some(directives_left(d, usize::from(b))),
        Expect::DirectiveLength(d, c) => {
            is_length(b).then_some(Expect::DirectiveName(less_one(b), false, d, c))
        }
        Expect::DirectiveName(n, after_word, d, c) => name_step(n, after_word, d, c, b),
        Expect::Rule(c) => is_rule(b).then_some(Expect::ClauseLength(c)),
        Expect::ClauseLength(c) => is_length(b).then_some(Expect::ClauseName(less_one(b), c)),
        Expect::ClauseName(n, c) => word_step(n, c, b),
        Expect::End => None, // nothing follows
    }
}

// Where a book that ends at a place is cut, if it is not whole.
fn ended(e: Expect, at: usize) -> Option<usize>
    ensures { result ≡ ended_at e at }
{
    match e {
        Expect::End => None,
        _ => Some(at),
    }
}

// The first bad byte, or the end of a book that is cut. Entries whose form is right are passed at once; the bytes of one whose form is not are read one by one.
pub fn first_bad(book: &[u8]) -> Option<usize>
    ensures { result ≡ bad_from (Expect.HeaderByte 0) 0 book.now }
{
    let waiting = past_entries(book);
    let mut expect = waiting.expect;
    for at in waiting.at..book.len() {
        match step(expect, book[at]) {
            Some(next) => expect = next,
            None => return Some(at),
        }
    }
    ended(expect, book.len())
}
