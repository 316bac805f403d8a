// The table of refusals of document 01: each reason with its number, and a refusal with its place.
#![tactic(auto)]

ghost use Rattle.std.specs.Prelude.{◌≡◌};
ghost use Rattle.refusal.specs.Table.{number_of};
ghost use Rattle.refusal.specs.Verdict.{refusal_at, text_verdict};

// Why a call refuses.
#[derive(Clone, Copy, Debug, PartialEq, Eq)]
pub enum Reason {
    // 1: the line or text has more than 16,384 bytes
    TooLong,
    // 2: a byte above 127
    HighByte,
    // 3: the text, map or copy buffer is short
    ShortBuffer,
    // 4: the book is wrong
    WrongBook,
    // 5: the language against bit 0 of the book
    WrongLanguage,
    // 6: the physical lines are no logical line
    InvalidLine,
    // 7: the opening words are absent
    NoOpening,
    // 8: a comment is not closed
    UnclosedComment,
    // 9: no directive name
    NoDirective,
    // 10: no clause word, or a word whose rule is Unsupported
    NoClause,
    // 11: a Parenthesized clause without its parenthesis
    NoParenthesis,
    // 12: a clause's parenthesis finds no match
    Unmatched,
    // 13: the 257th bracket open at once
    TooDeep,
    // 14: a clause or item with no slot left for it
    NoSlot,
    // 15: an empty item
    EmptyItem,
    // 16: a quote is not closed
    UnclosedQuote,
    // 17: a closing bracket that matches none
    WrongClosing,
    // 18: a bracket is open at the end of the text
    UnclosedBracket,
    // 19: a joined range outside the text
    BadSpan,
}

// A refusal: its reason, and the place that the table gives it.
#[derive(Clone, Copy, Debug, PartialEq, Eq)]
pub struct Refusal {
    pub reason: Reason,
    pub place: usize,
}

impl Reason {
    pub fn at(self, place: usize) -> Refusal
        ensures { result ≡ refusal_at self place }
    {
        Refusal {
            reason: self,
            place,
        }
    }
}

// The number of a reason in the table.
impl From<Reason> for u8 {
    ghost from_gives = { λ why n. n ≡ number_of why };

    fn from(reason: Reason) -> u8 {
        match reason {
            Reason::TooLong => 1,
            Reason::HighByte => 2,
            Reason::ShortBuffer => 3,
            Reason::WrongBook => 4,
            Reason::WrongLanguage => 5,
            Reason::InvalidLine => 6,
            Reason::NoOpening => 7,
            Reason::UnclosedComment => 8,
            Reason::NoDirective => 9,
            Reason::NoClause => 10,
            Reason::NoParenthesis => 11,
            Reason::Unmatched => 12,
            Reason::TooDeep => 13,
            Reason::NoSlot => 14,
            Reason::EmptyItem => 15,
            Reason::UnclosedQuote => 16,
            Reason::WrongClosing => 17,
            Reason::UnclosedBracket => 18,
            Reason::BadSpan => 19,
        }
    }
}

// The longest line or text.
pub const MAX_LENGTH: usize = 16384;

// Refusals 1 and 2: the length of a text, and its first byte above 127.
#[tactic(auto, unfolding(crate::specs::Verdict::text_verdict))]
pub fn check_text(text: &[u8]) -> Result<(), Refusal>
    ensures { result ≡ text_verdict text.now }
{
    if MAX_LENGTH < text.len() {
        return Err(Reason::TooLong.at(MAX_LENGTH));
    }
    if let Some(place) = ascii::first_high(text) {
        return Err(Reason::HighByte.at(place));
    }
    Ok(())
}
