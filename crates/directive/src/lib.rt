// The directive's name: the longest run of words that is a name of the book.
#![tactic(auto)]

pub mod alike;
pub mod candidate;
pub mod compacts;
pub mod foreseen;
pub mod names;
pub mod outlook;

ghost use Rattle.std.specs.Prelude.{◌≡◌, [], ◌≤◌, ◌<◌, length, drop, get_or};
ghost use Rattle.std.specs.Option.{option_copied};
ghost use Rattle.ascii.specs.Ascii.{is_word};
ghost use Rattle.refusal.specs.Answer.{told};
ghost use Rattle.rulebook.specs.Book.{book_of};
ghost use Rattle.directive.specs.Name.{entry_of, name_from, name_at};
ghost use Rattle.directive.specs.Steps.{next_of, Ahead, Ends, Placed};
ghost use Rattle.directive.specs.Kept.{KeptFor, Asked};
ghost use Rattle.directive.specs.Compacts.{IfCompacts};

use ascii::class::is_word;
use ascii::sets::Word;
use ascii::{byte_at, run_end};
use candidate::Candidate;
use compacts::CompactNames;
use lexer::trivia::skip;
use outlook::Outlook;
use refusal::{Reason, Refusal};
use rulebook::DirectiveBook;

// The entry of a directive's name, and where the name stands in the text.
#[derive(Clone, Copy, Debug, PartialEq, Eq)]
pub struct DirectiveName {
    pub entry: usize,
    pub start: usize,
    pub end: usize,
}

// A candidate that was a name: its entry and its end.
#[derive(Clone, Copy, Debug, PartialEq, Eq)]
pub struct Named {
    pub entry: usize,
    pub end: usize,
}

fn starts_word(text: &[u8], at: usize) -> bool
    ensures { result ≡ is_word (get_or text.now at 0) }
{
    is_word(byte_at(text, at))
}

// Where another word of a candidate stands, whose last one ends at a place and which has this entry. Trivia comes first, before anything is decided.
fn next_word(
    book: &DirectiveBook,
    text: &[u8],
    end: usize,
    candidate: &[u8],
    entry: Option<usize>,
    outlook: &mut Outlook,
) -> Result<Option<usize>, Refusal>
    requires end_in_bounds { end ≤ length text.now }
    requires not_empty { 0 < length candidate.now }
    requires value { entry ≡ entry_of (book_of book.now.bytes.now) candidate.now }
    requires ready { KeptFor (book_of book.now.bytes.now) candidate.now outlook.old }
    requires asked { Asked (book_of book.now.bytes.now) entry outlook.old }
    ensures value_2 { result ≡ next_of (book_of book.now.bytes.now) text.now end candidate.now }
    ensures ready_2 { KeptFor (book_of book.now.bytes.now) candidate.now outlook.new }
    ensures ahead { Ahead end (length text.now) result }
{
    let place = skip(text, end, book.header.ignores_case)?;
    if starts_word(text, place) && outlook.may_grow(book, candidate, entry) {
        Ok(Some(place))
    } else {
        Ok(None)
    }
}

// The last candidate that is a name, of those whose first word stands at a place, by a search that began at another: word by word, while the candidate may
// grow. The place jumps by words, so the loop is no `for`.
fn search(
    book: &DirectiveBook,
    compacts: Option<&CompactNames>,
    text: &[u8],
    from: usize,
    start: usize,
) -> Result<Named, Refusal>
    requires bounds { (from ≤ start) × (start ≤ length text.now) }
    requires made { IfCompacts (book_of book.now.bytes.now) (option_copied compacts) }
    ensures result_value { told result ≡ name_from (book_of book.now.bytes.now) text.now from [] None 0 start (drop start text.now) }
    ensures ends { Ends from start (length text.now) result }
{
    let mut candidate = Candidate::new();
    let mut outlook = Outlook::new(book);
    let mut found = None;
    let mut place = start;
    while starts_word(text, place) {
        let end = run_end::<Word>(text, place);
        if candidate.push_word(&text[place..end]).is_err() {
            // it is no name and begins none, but trivia is passed before anything is decided
            skip(text, end, book.header.ignores_case)?;
            break;
        }
        outlook.pass(&text[place..end]);
        let entry = outlook.entry_of(book, compacts, text, end, &candidate);
        if let Some(entry) = entry {
            found = Some(Named { entry, end });
        }
        match next_word(book, text, end, candidate.as_slice(), entry, &mut outlook)? {
            Some(next) => {
                place = next;
            }
            None => break,
        }
    }
    found.ok_or(Reason::NoDirective.at(from))
}

// The directive's name from a place of a text on, behind trivia.
pub fn lex_name(
    book: &DirectiveBook,
    compacts: Option<&CompactNames>,
    text: &[u8],
    at: usize,
) -> Result<DirectiveName, Refusal>
    requires in_bounds { at ≤ length text.now }
    requires made { IfCompacts (book_of book.now.bytes.now) (option_copied compacts) }
    ensures result_value { told result ≡ name_at (book_of book.now.bytes.now) text.now at }
    ensures placed { Placed at (length text.now) result }
{
    let start = skip(text, at, book.header.ignores_case)?;
    let found = search(book, compacts, text, at, start)?;
    Ok(DirectiveName {
        entry: found.entry,
        start,
        end: found.end,
    })
}
