// The names of a book that a candidate, as it stands, may still be a beginning of.
ghost use Rattle.std.specs.Prelude.{◌≡◌, ◌||◌, [], ◌∷◌, List, ℕ, map, length, get_or, eqb};
ghost use Rattle.ascii.specs.Text.{same_by, comparing};
ghost use Rattle.rulebook.specs.Book.{book_of};
ghost use Rattle.directive.specs.Name.{head_from};
ghost use Rattle.directive.specs.Steps.{Sought};

use crate::alike::alike;
use ascii::byte_at;
use rulebook::DirectiveBook;
use rulebook::names::Names;
use std::marker::Model;

// Whether a name ends at a place, or has a blank there.
fn ends_at(name: &[u8], at: usize) -> bool
    ensures { result ≡ (eqb at (length name.now) || eqb (get_or name.now at 0) 32) }
{
    at == name.len() || byte_at(name, at) == b' '
}

// Whether a candidate is a name, or the words of a name before one of its blanks. What stands behind these is asked first: most names have other bytes there.
fn has_head(name: &[u8], candidate: &[u8], ignore_case: bool) -> bool
    ensures { result ≡ head_from (same_by (comparing ignore_case)) [] name.now candidate.now }
{
    let len = candidate.len();
    if name.len() < len || !ends_at(name, len) {
        return false;
    }
    alike(&name[..len], candidate, ignore_case)
}

// The names that a candidate may still be a beginning of: one, and those behind it. Those before it are passed for good, as a name that does not begin with
// some words does not begin with more words either.
#[derive(Drop)]
pub struct NamesLeft<'a> {
    name: &'a [u8],
    rest: Names<'a>,
}

impl<'a> Model for NamesLeft<'a> {
    ghost Value = { List (List ℕ) };

    ghost view = { λ s. s.name.now ∷ s.rest };
}

impl<'a> NamesLeft<'a> {
    // All names of a book, behind an empty one.
    pub fn new(book: &DirectiveBook<'a>) -> NamesLeft<'a>
        ensures { result ≡ [] ∷ map (λ e. e.name) (book_of book.now.bytes.now).directives }
    {
        NamesLeft {
            name: b"",
            rest: book.directive_names(),
        }
    }

    // Whether a candidate is a beginning of one of them. The names before that one are passed.
    pub fn any_begins(&mut self, candidate: &[u8], ignore_case: bool) -> bool
        ensures { Sought (λ n. head_from (same_by (comparing ignore_case)) [] n candidate.now) self.old self.new result }
    {
        while !has_head(self.name, candidate, ignore_case) {
            match self.rest.next() {
                Some(name) => self.name = name,
                None => return false,
            }
        }
        true
    }
}
