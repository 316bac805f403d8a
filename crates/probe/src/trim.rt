// The request `trim TEXT`.
use crate::print::Told;
use crate::words::hex;
use crate::work::Spelled;
use std::io;
use std::io::Write;

#[derive(Clone, Copy)]
pub struct Request<'s> {
    text: &'s [u8],
}

impl<'s> Request<'s> {
    pub fn parse(words: &[&[u8]], spelled: &'s mut Spelled) -> Option<Request<'s>> {
        let [text] = *words else { return None };
        Some(Request {
            text: hex(text, &mut spelled.first)?,
        })
    }

    pub fn answer(self, out: &mut impl Write) -> io::Result<()> {
        let start = ascii::trim_range(self.text).start;
        let end = start + ascii::trim(self.text).len();
        writeln!(out, "{}", Told(Ok([start, end])))
    }
}
