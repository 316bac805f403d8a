// The request `seq SLOTS BOOK TEXT`.
use crate::print::Told;
use crate::slots::{Count, Slot, Slots};
use crate::words::hex;
use crate::work::Spelled;
use clause::ClauseRecord;
use std::io;
use std::io::Write;

#[derive(Clone, Copy)]
pub struct Request<'s> {
    slots: Count<512>,
    book: &'s [u8],
    text: &'s [u8],
}

impl<'s> Request<'s> {
    pub fn parse(words: &[&[u8]], spelled: &'s mut Spelled) -> Option<Request<'s>> {
        let [slots, book, text] = *words else {
            return None;
        };
        let Spelled { first, second, .. } = spelled;
        Some(Request {
            slots: Count::parse(slots)?,
            book: hex(book, first)?,
            text: hex(text, second)?,
        })
    }

    // Stands apart, so that no other request has room for its records on the stack.
    #[inline(never)]
    pub fn answer(self, out: &mut impl Write) -> io::Result<()> {
        let Request { slots, book, text } = self;
        let done = clause::parse_sequence_array(book, text, slots.get(), [ClauseRecord::MARK; 512]);
        let told = Told(done.answer.map(|end| [end.count, end.rest]));
        writeln!(out, "{told} : {}", Slots(slots.of(&done.records)))
    }
}
