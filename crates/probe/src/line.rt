// The request `line LANG PREFIX TEXTSLOTS MAPSLOTS RECORDSLOTS BOOK LINE`.
use crate::form::Form;
use crate::print::Told;
use crate::slots::{Count, Slot, Slots};
use crate::words::hex;
use crate::work::{Lent, Spelled};
use clause::ClauseRecord;
use reader::Reading;
use std::io;
use std::io::Write;

#[derive(Clone, Copy)]
pub struct Request<'s> {
    form: Form,
    slots: Count<512>,
    book: &'s [u8],
    line: &'s [u8],
}

fn numbers(reading: Reading) -> [usize; 5] {
    let Reading {
        entry,
        name_start,
        name_end,
        count,
        rest,
    } = reading;
    [entry, name_start, name_end, count, rest]
}

impl<'s> Request<'s> {
    pub fn parse(words: &[&[u8]], spelled: &'s mut Spelled) -> Option<Request<'s>> {
        let [language, prefix, text, map, slots, book, line] = *words else {
            return None;
        };
        let Spelled { first, second, .. } = spelled;
        Some(Request {
            form: Form::parse([language, prefix, text, map])?,
            slots: Count::parse(slots)?,
            book: hex(book, first)?,
            line: hex(line, second)?,
        })
    }

    // Stands apart, so that no other request has room for its records on the stack.
    #[inline(never)]
    pub fn answer(self, lent: &mut Lent, out: &mut impl Write) -> io::Result<()> {
        let Request {
            form,
            slots,
            book,
            line,
        } = self;
        let text = form.text.lend(&mut lent.bytes);
        let map = form.map.lend(&mut lent.numbers);
        let records = [ClauseRecord::MARK; 512];
        let done = reader::read_line_array(
            form.dialect,
            book,
            line,
            text,
            map,
            slots.get(),
            records,
        );
        let told = Told(done.answer.map(numbers));
        write!(out, "{told} : {} : {}", Slots(text), Slots(map))?;
        writeln!(out, " : {}", Slots(slots.of(&done.records)))
    }
}
