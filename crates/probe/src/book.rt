// The request `book BOOK`.
use crate::print::Told;
use crate::words::hex;
use crate::work::Spelled;
use std::io;
use std::io::Write;

#[derive(Clone, Copy)]
pub struct Request<'s> {
    book: &'s [u8],
}

impl<'s> Request<'s> {
    pub fn parse(words: &[&[u8]], spelled: &'s mut Spelled) -> Option<Request<'s>> {
        let [book] = *words else { return None };
        Some(Request {
            book: hex(book, &mut spelled.first)?,
        })
    }

    pub fn answer(self, out: &mut impl Write) -> io::Result<()> {
        let answer = rulebook::check_book(self.book);
        writeln!(out, "{}", Told(answer.map(|()| [])))
    }
}
