// The opening words of a directive line.
ghost use Rattle.std.specs.Prelude.{◌≡◌, length};
ghost use Rattle.lexer.specs.Steps.{step_of, Forward};
ghost use Rattle.reader.specs.Line.{opening_c, opening_f, opening as opening_of};

use lexer::{Cursor, Dialect, Language, Prefix, continuation};
use refusal::{Reason, Refusal};

// `#pragma`, perhaps with trivia in it, and the prefix, each with trivia behind it.
fn opening_c(prefix: Prefix, text: &[u8]) -> Result<Cursor, Refusal>
    ensures result_value { step_of result ≡ opening_c prefix text.now }
    ensures forward { Forward 0 (length text.now) result }
{
    Cursor { at: 0 }
        .trivia(text, false)?
        .pragma(text)?
        .some_trivia(text, false)?
        .prefix(text, prefix)?
        .some_trivia(text, false)
}

// A sentinel behind trivia of C, and trivia of Fortran behind it. Its absence is refused at the start.
fn opening_f(dialect: Dialect, text: &[u8]) -> Result<Cursor, Refusal>
    ensures result_value { step_of result ≡ opening_f dialect.language dialect.prefix text.now }
    ensures forward { Forward 0 (length text.now) result }
{
    let start = Cursor { at: 0 }.trivia(text, false)?.at;
    let Some(n) = continuation::opening_sentinel(&text[start..], dialect) else {
        return Err(Reason::NoOpening.at(0));
    };
    Cursor { at: start + n }.some_trivia(text, true)
}

// The opening words of a language, from the start of a text.
pub fn opening(dialect: Dialect, text: &[u8]) -> Result<Cursor, Refusal>
    ensures result_value { step_of result ≡ opening_of dialect.language dialect.prefix text.now }
    ensures forward { Forward 0 (length text.now) result }
{
    match dialect.language {
        Language::C => opening_c(dialect.prefix, text),
        Language::FortranFree | Language::FortranFixed => opening_f(dialect, text),
    }
}
