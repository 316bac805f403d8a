// The check of a book.
ghost use Rattle.std.specs.Prelude.{◌≡◌};
ghost use Rattle.rulebook.specs.Check.{book_verdict};
ghost use Rattle.rulebook.specs.Index.{Fresh};
ghost use Rattle.rulebook.specs.Judged.{Judged};

use crate::CheckedBook;
use crate::index::Index;
use crate::lookup::FormedBook;
use bookform::format;
use refusal::{Reason, Refusal};

// A bad byte, the book's end if it is cut, else a repeat. In a book without a fault the index is made. That the index is a new one is asked of the caller:
// it is none any more behind this, so no type of an index says it.
pub fn checked<'a>(book: &'a [u8], index: &'a mut Index) -> Result<CheckedBook<'a>, Refusal>
    requires { Fresh index.old }
    ensures { Judged book.now result }
{
    if let Some(place) = format::first_bad(book) {
        return Err(Reason::WrongBook.at(place));
    }
    let formed = FormedBook { bytes: book };
    let end = formed.index_names(index)?;
    Ok(CheckedBook {
        bytes: book,
        header: formed.header(end),
        index,
    })
}

// Whether a book is valid: refusal 4 with its place if not.
pub fn check_book(book: &[u8]) -> Result<(), Refusal>
    ensures { result ≡ book_verdict book.now }
{
    let mut index = Index::new();
    checked(book, &mut index)?;
    Ok(())
}
