// The request `back LENGTH START END MAP`.
use crate::print::Told;
use crate::words::{list, number};
use crate::work::Spelled;
use std::io;
use std::io::Write;

const MOST: usize = 100000;

#[derive(Clone, Copy)]
pub struct Request<'s> {
    length: usize,
    start: usize,
    end: usize,
    map: &'s [u16],
}

impl<'s> Request<'s> {
    pub fn parse(words: &[&[u8]], spelled: &'s mut Spelled) -> Option<Request<'s>> {
        let [length, start, end, map] = *words else {
            return None;
        };
        Some(Request {
            length: number(length, MOST)?,
            start: number(start, MOST)?,
            end: number(end, MOST)?,
            map: list(map, &mut spelled.numbers)?,
        })
    }

    pub fn answer(self, out: &mut impl Write) -> io::Result<()> {
        let answer = source::map_back(self.map, self.length, self.start, self.end);
        writeln!(
            out,
            "{}",
            Told(answer.map(|range| [range.start, range.end]))
        )
    }
}
