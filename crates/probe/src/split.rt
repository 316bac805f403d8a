// The request `split LANG SEP ANGLES SLOTS TEXT`.
use crate::form::language;
use crate::print::Told;
use crate::slots::{Count, Slots};
use crate::words::{flag, hex};
use crate::work::{Lent, Spelled};
use delimiter::Separator;
use lexer::Language;
use std::io;
use std::io::Write;

#[derive(Clone, Copy)]
pub struct Request<'s> {
    language: Language,
    separator: Separator,
    angles: bool,
    slots: Count<20000>,
    text: &'s [u8],
}

fn separator(word: &[u8]) -> Option<Separator> {
    match word {
        b"comma" => Some(Separator::Comma),
        b"colon" => Some(Separator::Colon),
        _ => None,
    }
}

impl<'s> Request<'s> {
    pub fn parse(words: &[&[u8]], spelled: &'s mut Spelled) -> Option<Request<'s>> {
        let [lang, sep, angles, slots, text] = *words else {
            return None;
        };
        Some(Request {
            language: language(lang)?,
            separator: separator(sep)?,
            angles: flag(angles)?,
            slots: Count::parse(slots)?,
            text: hex(text, &mut spelled.first)?,
        })
    }

    pub fn answer(self, lent: &mut Lent, out: &mut impl Write) -> io::Result<()> {
        let items = self.slots.lend(&mut lent.numbers);
        let answer = delimiter::split_top_level(
            self.text,
            self.language,
            self.separator,
            self.angles,
            items,
        );
        writeln!(
            out,
            "{} : {}",
            Told(answer.map(|count| [count])),
            Slots(items)
        )
    }
}
