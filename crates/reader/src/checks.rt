// The checks of a line under its book: refusals 5 and 6.
ghost use Rattle.std.specs.Prelude.{◌≡◌};
ghost use Rattle.reader.specs.Steps.{suited, line_verdict};

use lexer::{Dialect, Language};
use refusal::{Reason, Refusal};

// Whether a book is of the line's language.
fn is_suited(language: Language, ignores_case: bool) -> bool
    ensures { result ≡ suited language ignores_case }
{
    matches!(language, Language::C) != ignores_case
}

// The language against the book, and the physical lines.
#[tactic(auto, unfolding(crate::specs::Steps::line_verdict))]
pub fn check_line(dialect: Dialect, ignores_case: bool, line: &[u8]) -> Result<(), Refusal>
    ensures { result ≡ line_verdict dialect.language dialect.prefix ignores_case line.now }
{
    if !is_suited(dialect.language, ignores_case) {
        return Err(Reason::WrongLanguage.at(0));
    }
    source::check_lines(dialect, line)
}
