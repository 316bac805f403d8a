// The words LANG PREFIX TEXTSLOTS MAPSLOTS, with which two requests begin; a third has LANG alone.
use crate::slots::Count;
use lexer::{Dialect, Language, Prefix};

#[derive(Clone, Copy)]
pub struct Form {
    pub dialect: Dialect,
    pub text: Count<20000>,
    pub map: Count<20000>,
}

// No `TryFrom`, here and for the words below and of a split: both types are of crates below.
pub fn language(word: &[u8]) -> Option<Language> {
    match word {
        b"c" => Some(Language::C),
        b"free" => Some(Language::FortranFree),
        b"fixed" => Some(Language::FortranFixed),
        _ => None,
    }
}

fn prefix(word: &[u8]) -> Option<Prefix> {
    match word {
        b"omp" => Some(Prefix::Omp),
        b"acc" => Some(Prefix::Acc),
        _ => None,
    }
}

impl Form {
    pub fn parse(words: [&[u8]; 4]) -> Option<Form> {
        let [lang, pre, text, map] = words;
        Some(Form {
            dialect: Dialect {
                language: language(lang)?,
                prefix: prefix(pre)?,
            },
            text: Count::parse(text)?,
            map: Count::parse(map)?,
        })
    }
}
