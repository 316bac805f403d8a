// The request `join LANG PREFIX TEXTSLOTS MAPSLOTS LINE`.
use crate::form::Form;
use crate::print::Told;
use crate::slots::Slots;
use crate::words::hex;
use crate::work::{Lent, Spelled};
use std::io;
use std::io::Write;

#[derive(Clone, Copy)]
pub struct Request<'s> {
    form: Form,
    line: &'s [u8],
}

impl<'s> Request<'s> {
    pub fn parse(words: &[&[u8]], spelled: &'s mut Spelled) -> Option<Request<'s>> {
        let [language, prefix, text, map, line] = *words else {
            return None;
        };
        Some(Request {
            form: Form::parse([language, prefix, text, map])?,
            line: hex(line, &mut spelled.first)?,
        })
    }

    pub fn answer(self, lent: &mut Lent, out: &mut impl Write) -> io::Result<()> {
        let text = self.form.text.lend(&mut lent.bytes);
        let map = self.form.map.lend(&mut lent.numbers);
        let answer = source::join_line(self.form.dialect, self.line, text, map);
        let told = Told(answer.map(|length| [length]));
        writeln!(out, "{told} : {} : {}", Slots(text), Slots(map))
    }
}
