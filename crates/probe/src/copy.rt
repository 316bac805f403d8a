// The request `copy SLOTS CONTENT`.
use crate::print::Told;
use crate::slots::{Count, Slots};
use crate::words::hex;
use crate::work::{Lent, Spelled};
use std::io;
use std::io::Write;

#[derive(Clone, Copy)]
pub struct Request<'s> {
    slots: Count<20000>,
    content: &'s [u8],
}

impl<'s> Request<'s> {
    pub fn parse(words: &[&[u8]], spelled: &'s mut Spelled) -> Option<Request<'s>> {
        let [slots, content] = *words else {
            return None;
        };
        Some(Request {
            slots: Count::parse(slots)?,
            content: hex(content, &mut spelled.first)?,
        })
    }

    pub fn answer(self, lent: &mut Lent, out: &mut impl Write) -> io::Result<()> {
        let copy = self.slots.lend(&mut lent.bytes);
        let answer = source::copy_content(self.content, copy);
        writeln!(
            out,
            "{} : {}",
            Told(answer.map(|length| [length])),
            Slots(copy)
        )
    }
}
