// Continuations, sentinels and trivia of a directive line.
#![tactic(auto)]

pub mod continuation;
pub mod trivia;

ghost use Rattle.std.specs.Prelude.{◌≡◌, ◌≤◌, length};
ghost use Rattle.lexer.specs.Continuation.{prefix_bytes};
ghost use Rattle.lexer.specs.Steps.{step_of, trivia_step, some_trivia_step, word_behind, word_step, pragma_step, word_end, Forward};

use ascii::sets::Word;
use refusal::{Reason, Refusal};

// The language of a line, with the source form of Fortran.
#[derive(Clone, Copy, Debug, PartialEq, Eq)]
pub enum Language {
    C,
    FortranFree,
    FortranFixed,
}

// The directives' prefix.
#[derive(Clone, Copy, Debug, PartialEq, Eq)]
pub enum Prefix {
    Omp,
    Acc,
}

// A language, and the prefix of the directives that are read in it. No line is in it: a call is lent one, and its steps go on with what is joined of that.
#[derive(Clone, Copy, Debug, PartialEq, Eq)]
pub struct Dialect {
    pub language: Language,
    pub prefix: Prefix,
}

// A place in a text, which moves forward. The text is not in it: each step would have to promise besides that it kept the text.
#[derive(Clone, Copy, Debug, PartialEq, Eq)]
pub struct Cursor {
    pub at: usize,
}

impl Prefix {
    // The prefix as a word.
    pub fn bytes(self) -> &'static [u8]
        ensures { result.now ≡ prefix_bytes self }
    {
        match self {
            Prefix::Omp => b"omp",
            Prefix::Acc => b"acc",
        }
    }
}

impl Cursor {
    // Past all trivia.
    pub fn trivia(self, text: &[u8], fortran: bool) -> Result<Cursor, Refusal>
        requires { self.at ≤ length text.now }
        ensures result_value { step_of result ≡ trivia_step fortran text.now self.at }
        ensures forward { Forward self.at (length text.now) result }
    {
        let at = trivia::skip(text, self.at, fortran)?;
        Ok(Cursor { at })
    }

    // Past trivia of at least one byte.
    pub fn some_trivia(self, text: &[u8], fortran: bool) -> Result<Cursor, Refusal>
        requires { self.at ≤ length text.now }
        ensures result_value { step_of result ≡ some_trivia_step fortran text.now self.at }
        ensures forward { Forward self.at (length text.now) result }
    {
        let at = trivia::skip(text, self.at, fortran)?;
        if at == self.at {
            return Err(Reason::NoOpening.at(at));
        }
        Ok(Cursor { at })
    }

    // Past a fixed word, the last part of a step that began at place from: the step is refused there.
    fn word_behind(self, text: &[u8], word: &[u8], from: usize) -> Result<Cursor, Refusal>
        requires { self.at ≤ length text.now }
        ensures result_value { step_of result ≡ word_behind from word.now text.now self.at }
        ensures forward { Forward self.at (length text.now) result }
    {
        if !text[self.at..].starts_with(word) {
            return Err(Reason::NoOpening.at(from));
        }
        Ok(Cursor {
            at: self.at + word.len(),
        })
    }

    // Past a fixed word.
    pub fn word(self, text: &[u8], word: &[u8]) -> Result<Cursor, Refusal>
        requires { self.at ≤ length text.now }
        ensures result_value { step_of result ≡ word_step word.now text.now self.at }
        ensures forward { Forward self.at (length text.now) result }
    {
        self.word_behind(text, word, self.at)
    }

    // Past `#`, trivia or none, and `pragma`, as one step: a word that is missing is refused where the step began.
    pub fn pragma(self, text: &[u8]) -> Result<Cursor, Refusal>
        requires { self.at ≤ length text.now }
        ensures result_value { step_of result ≡ pragma_step text.now self.at }
        ensures forward { Forward self.at (length text.now) result }
    {
        let a = self.word(text, b"#")?;
        let b = a.trivia(text, false)?;
        b.word_behind(text, b"pragma", self.at)
    }

    // Past the prefix as a word of C.
    pub fn prefix(self, text: &[u8], prefix: Prefix) -> Result<Cursor, Refusal>
        requires { self.at ≤ length text.now }
        ensures result_value { step_of result ≡ word_step (prefix_bytes prefix) text.now self.at }
        ensures forward { Forward self.at (length text.now) result }
    {
        self.word(text, prefix.bytes())
    }

    // To the end of the word that stands here, an identifier; stays where none does.
    pub fn word_end(self, text: &[u8]) -> Cursor
        requires { self.at ≤ length text.now }
        ensures at_value { result.at ≡ word_end text.now self.at }
        ensures at_le_at { (self.at ≤ result.at) × (result.at ≤ length text.now) }
    {
        Cursor {
            at: ascii::run_end::<Word>(text, self.at),
        }
    }
}
