// One clause: its word, its entry and rule under the book, and its argument.
ghost use Rattle.std.specs.Prelude.{◌≡◌, Option, Some, cond, suc, ◌≤◌, ◌<◌, ◌/◌, length, drop, IfSome};
ghost use Rattle.refusal.specs.Answer.{max_length};
ghost use Rattle.code.specs.Marks.{Marked};
ghost use Rattle.code.specs.Matching.{matching};
ghost use Rattle.lexer.specs.Trivia.{skip};
ghost use Rattle.rulebook.specs.Book.{book_of};
ghost use Rattle.clause.specs.Clause.{style, word_record, bare_clause, closing, argument as argument_of, clause_at, WordIn};
ghost use Rattle.clause.specs.Sequence.{separated};

use crate::{ClauseError, ClauseList, ClauseRead, ClauseRecord, Separation};
use ascii::Range;
use ascii::sets::Word;
use bookform::ClauseRule;
use code::{CodeText, CommentStyle, NoMatch};
use refusal::{Reason, Refusal};
use rulebook::CheckedBook;

// A clause's word in its text, and its entry in the book, if it has one.
#[derive(Clone, Copy)]
pub struct ClauseWord<'a> {
    pub text: &'a [u8],
    pub fortran: bool,
    pub marks: &'a [u32],
    pub start: usize,
    pub end: usize,
    pub entry: Option<u16>,
    pub ghost word: { WordIn text.now start end },
    pub ghost marked: { Marked (style fortran) text.now marks.now },
}

// What a record tells C of a word without an entry.
const NO_ENTRY: u16 = 65535;

// A place of a text as a record holds it. No `TryFrom`: it always fits, which the contract says.
fn narrow(place: usize) -> u16
    requires { place ≤ max_length }
    ensures { result ≡ place }
{
    place as u16
}

// The comments that matching passes over, by bit 0 of a book. No `From`: a split has others (`delimiter::split::style_of`).
fn style_of(fortran: bool) -> CommentStyle
    ensures { result ≡ style fortran }
{
    if fortran {
        CommentStyle::Fortran
    } else {
        CommentStyle::CLike
    }
}

// The marks of a text whose clauses are to be read under a book.
pub fn fill_marks(book: &CheckedBook, text: &[u8], marks: &mut [u32])
    requires { (length text.now ≤ max_length) × (length text.now / 32 < length marks.old) }
    ensures { Marked (style (book_of book.now.bytes.now).ignores_case) text.now marks.new }
{
    let code = CodeText {
        text,
        style: style_of(book.header.ignores_case),
    };
    code.fill_marks(marks);
}

impl ClauseWord<'_> {
    // Its record, with the range of its content if it has an argument.
    fn record(&self, content: Option<Range>) -> ClauseRecord
        requires { IfSome content (λ r. (r.start ≤ max_length) × (r.end ≤ max_length)) }
        ensures { result ≡ word_record self.now.start self.now.end self.now.entry content }
    {
        let parenthesized = content.is_some();
        let content = content.unwrap_or(Range { start: 0, end: 0 });
        ClauseRecord {
            name_start: narrow(self.start),
            name_end: narrow(self.end),
            entry: self.entry.unwrap_or(NO_ENTRY),
            parenthesized,
            content_start: narrow(content.start),
            content_end: narrow(content.end),
            preceded: false,
            trailing: false,
        }
    }

    // The word alone.
    fn bare(&self) -> Result<ClauseRead, ClauseError>
        ensures { result ≡ bare_clause self.now.start self.now.end self.now.entry }
    {
        Ok(ClauseRead {
            clause: self.record(None),
            end: self.end,
        })
    }

    // The word with an argument, whose parenthesis opens at a place.
    fn closed(&self, at: usize) -> Result<ClauseRead, ClauseError>
        requires { at < length self.now.text.now }
        ensures { result ≡ closing self.now.fortran self.now.text.now self.now.start self.now.end self.now.entry at
            (matching (style self.now.fortran) (suc at) (drop (suc at) self.now.text.now)) }
    {
        let inner = at + 1;
        let code = CodeText {
            text: self.text,
            style: style_of(self.fortran),
        };
        match code.find_matching_parenthesis(inner, self.marks) {
            Ok(close) => {
                let content = ascii::trim_between(self.text, inner, close);
                Ok(ClauseRead {
                    clause: self.record(Some(content)),
                    end: close + 1,
                })
            }
            Err(NoMatch::Unmatched) => Err(ClauseError::Failed(Reason::Unmatched.at(at))),
            Err(NoMatch::DeepAt(place)) => Err(ClauseError::Deep(place)),
        }
    }

    // The word with the argument behind it, which it needs or may have: the two rules differ in one test, a bool.
    fn with_argument(&self, needed: bool) -> Result<ClauseRead, ClauseError>
        ensures { result ≡ argument_of self.now.fortran self.now.text.now self.now.start self.now.end self.now.entry
            (cond needed ClauseRule.Parenthesized ClauseRule.Flexible) (skip self.now.fortran self.now.text.now self.now.end) }
    {
        let place = lexer::trivia::skip(self.text, self.end, self.fortran)?;
        if ascii::byte_at(self.text, place) == b'(' {
            return self.closed(place);
        }
        if needed {
            return Err(ClauseError::Failed(Reason::NoParenthesis.at(place)));
        }
        self.bare()
    }

    // The clause of the word, by its rule. Two rules share one call, so that the compiler draws it in.
    fn argument(&self, rule: ClauseRule) -> Result<ClauseRead, ClauseError>
        ensures { result ≡ argument_of self.now.fortran self.now.text.now self.now.start self.now.end self.now.entry
            rule (skip self.now.fortran self.now.text.now self.now.end) }
    {
        match rule {
            ClauseRule::Bare => self.bare(),
            ClauseRule::Parenthesized | ClauseRule::Flexible => {
                self.with_argument(matches!(rule, ClauseRule::Parenthesized))
            }
            ClauseRule::Unsupported => Err(ClauseError::Failed(Reason::NoClause.at(self.end))),
        }
    }
}

impl ClauseList<'_> {
    // The clause at a place of a text that is not too long.
    pub fn read_clause(&self, at: usize) -> Result<ClauseRead, ClauseError>
        requires short { length self.now.text.now ≤ max_length }
        requires inside { at ≤ length self.now.text.now }
        ensures { result ≡ clause_at (book_of self.now.book.now.bytes.now) self.now.text.now at }
    {
        let end = ascii::run_end::<Word>(self.text, at);
        if end == at {
            return Err(ClauseError::Failed(Reason::NoClause.at(at)));
        }
        let found = self.book.find_clause(&self.text[at..end]);
        let word = ClauseWord {
            text: self.text,
            fortran: self.book.header.ignores_case,
            marks: self.marks,
            start: at,
            end,
            entry: found.index,
        };
        word.argument(found.rule)
    }
}

// What follows a clause that ends at a place: trivia, perhaps a comma, trivia. Without a comma the trivia is passed already.
pub fn separation(text: &[u8], at: usize, fortran: bool) -> Result<Separation, Refusal>
    requires { at ≤ length text.now }
    ensures { result ≡ separated fortran text.now at }
{
    let place = lexer::trivia::skip(text, at, fortran)?;
    if ascii::byte_at(text, place) == b',' {
        let next = lexer::trivia::skip(text, place + 1, fortran)?;
        return Ok(Separation { comma: true, next });
    }
    Ok(Separation {
        comma: false,
        next: place,
    })
}
