// Which call a request asks for.
use crate::work::{Lent, Spelled};
use crate::{back, book, copy, join, line, sequence, split, trim};
use std::io;
use std::io::Write;

#[derive(Clone, Copy)]
pub enum Call<'s> {
    Trim(trim::Request<'s>),
    Split(split::Request<'s>),
    Join(join::Request<'s>),
    Back(back::Request<'s>),
    Copy(copy::Request<'s>),
    Book(book::Request<'s>),
    Sequence(sequence::Request<'s>),
    Line(line::Request<'s>),
}

// What the words of a line ask for, if anything.
pub fn call_of<'s>(words: &[&[u8]], spelled: &'s mut Spelled) -> Option<Call<'s>> {
    let (name, words) = words.split_first()?;
    match *name {
        b"trim" => trim::Request::parse(words, spelled).map(Call::Trim),
        b"split" => split::Request::parse(words, spelled).map(Call::Split),
        b"join" => join::Request::parse(words, spelled).map(Call::Join),
        b"back" => back::Request::parse(words, spelled).map(Call::Back),
        b"copy" => copy::Request::parse(words, spelled).map(Call::Copy),
        b"book" => book::Request::parse(words, spelled).map(Call::Book),
        b"seq" => sequence::Request::parse(words, spelled).map(Call::Sequence),
        b"line" => line::Request::parse(words, spelled).map(Call::Line),
        _ => None,
    }
}

impl Call<'_> {
    // Makes the call, and writes its answer. A match and no `dyn`: a method over `impl Write` has none.
    pub fn answer(self, lent: &mut Lent, out: &mut impl Write) -> io::Result<()> {
        match self {
            Call::Trim(request) => request.answer(out),
            Call::Split(request) => request.answer(lent, out),
            Call::Join(request) => request.answer(lent, out),
            Call::Back(request) => request.answer(out),
            Call::Copy(request) => request.answer(lent, out),
            Call::Book(request) => request.answer(out),
            Call::Sequence(request) => request.answer(out),
            Call::Line(request) => request.answer(lent, out),
        }
    }
}
