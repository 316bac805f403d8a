// Answers as numbers, and numbers as what they stand for: what the calls for programs in C and Rust are made of.
#![tactic(auto)]

pub mod lines;
pub mod parts;
pub mod sequences;

ghost use Rattle.std.specs.Prelude.{◌≡◌};
ghost use Rattle.refusal.specs.Table.{number_of};
ghost use Rattle.refusal.specs.Answer.{told};
ghost use Rattle.coded.specs.Coded.{coded, coded_refusal, coded_sequence, coded_line, place_code, rest_of, reading_numbers, language_of, prefix_of, separator_of};

use clause::SequenceEnd;
use delimiter::Separator;
use lexer::{Dialect, Language, Prefix};
use reader::Reading;
use refusal::Refusal;

// A language, a prefix and a flag are numbers and not enums here: the interface for C passes any number, and says what each of them means
// (include/pelzurda.h).

pub fn language_of(language: u32) -> Language
    ensures { result ≡ language_of language }
{
    match language {
        1 => Language::FortranFree,
        2 => Language::FortranFixed,
        _ => Language::C,
    }
}

pub fn prefix_of(prefix: u32) -> Prefix
    ensures { result ≡ prefix_of prefix }
{
    match prefix {
        1 => Prefix::Acc,
        _ => Prefix::Omp,
    }
}

pub fn dialect_of(language: u32, prefix: u32) -> Dialect
    ensures { result ≡ record { language = language_of language; prefix = prefix_of prefix } }
{
    Dialect {
        language: language_of(language),
        prefix: prefix_of(prefix),
    }
}

pub fn separator_of(colon: u32) -> Separator
    ensures { result ≡ separator_of colon }
{
    match colon {
        0 => Separator::Comma,
        _ => Separator::Colon,
    }
}

// The low 32 bits of a refusal: its place, or their largest number. What a number of the interface for C holds is worked out here and below, in no `From` of
// the types that it tells of.
pub fn place_code(place: usize) -> u64
    ensures { result ≡ place_code place }
{
    place.min(0xffff_ffff) as u64
}

pub fn code_of(refused: Refusal) -> u64
    ensures { result ≡ coded_refusal (number_of refused.reason) refused.place }
{
    let number = u64::from(u8::from(refused.reason));
    0x8000_0000_0000_0000 + number * 0x1_0000_0000 + place_code(refused.place)
}

// A count or length, or a refusal.
pub fn count_code(answer: Result<usize, Refusal>) -> u64
    ensures { result ≡ coded (told answer) }
{
    match answer {
        Ok(n) => n as u64,
        Err(refused) => code_of(refused),
    }
}

// The count of a sequence's clauses, and the place of the unread rest in the lent number.
pub fn sequence_code(answer: Result<SequenceEnd, Refusal>, rest: &mut [u64; 1]) -> u64
    ensures { (result ≡ coded_sequence (told answer)) × (rest.new ≡ rest_of (told answer)) }
{
    let [count, unread] = sequences::sequence_numbers(answer);
    *rest = [unread];
    count
}

// The directive's entry of a line, and where its name stands, its clauses' number and the place of the unread rest in the lent numbers.
pub fn line_code(answer: Result<Reading, Refusal>, reading: &mut [u64; 4]) -> u64
    ensures { (result ≡ coded_line (told answer)) × (reading.new ≡ reading_numbers (told answer)) }
{
    let [entry, name_start, name_end, count, rest] = lines::line_numbers(answer);
    *reading = [name_start, name_end, count, rest];
    entry
}
