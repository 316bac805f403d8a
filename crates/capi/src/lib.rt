// The public calls for programs in C and Rust: numbers and slices only, and an answer that is one number (include/pelzurda.h).
#![tactic(auto)]

ghost use Rattle.std.specs.Prelude.{◌≡◌, ◌-◌, length};
ghost use Rattle.ascii.specs.Text.{trimmed};
ghost use Rattle.delimiter.specs.Split.{split_call};
ghost use Rattle.source.specs.Calls.{join_call, span_answer, copy_call};
ghost use Rattle.rulebook.specs.Check.{book_call};
ghost use Rattle.clause.specs.Calls.{sequence_call};
ghost use Rattle.reader.specs.Calls.{line_call};
ghost use Rattle.coded.specs.Coded.{coded, coded_yes, SequenceCoded, sequence_coded, LineCoded, line_coded, span_ends, range_ends, is_set, language_of, prefix_of, separator_of};
ghost use Rattle.coded.specs.Lines.{LinesCall, lines_call};
ghost use Rattle.coded.specs.Sequences.{SequencesCall, sequences_call};

use clause::ClauseRecord;
use coded::lines::LineReader;
use coded::parts::answer_parts;
use coded::sequences::SequenceReader;
use coded::{code_of, count_code, dialect_of, language_of, line_code, separator_of, sequence_code};
use directive::compacts::CompactNames;
use rulebook::index::Index;

// Trim: the length of what is left, and its start and end in the two lent numbers.
#[unsafe(no_mangle)]
pub extern "C" fn pelzurda_trim(text: &[u8], range: &mut [u64; 2]) -> u64
    ensures value { result ≡ (trimmed 0 text.now).end - (trimmed 0 text.now).start }
    ensures range_after { range.new ≡ range_ends (trimmed 0 text.now) }
{
    let left = ascii::trim_range(text);
    *range = [left.start as u64, left.end as u64];
    (left.end - left.start) as u64
}

// Split: the number of items, with the start and end of each at the front of the slots.
#[unsafe(no_mangle)]
pub extern "C" fn pelzurda_split(
    text: &[u8],
    language: u32,
    colon: u32,
    angles: u32,
    items: &mut [u16],
) -> u64
    ensures value { result ≡ coded (split_call text.now (language_of language) (separator_of colon) (is_set angles) (length items.old)).answer }
    ensures after { items.new ≡ (split_call text.now (language_of language) (separator_of colon) (is_set angles) (length items.old)).items }
{
    count_code(delimiter::split_top_level(
        text,
        language_of(language),
        separator_of(colon),
        angles != 0,
        items,
    ))
}

// Join alone: the length of the text, which fills the front of its slots, as its map does.
#[unsafe(no_mangle)]
pub extern "C" fn pelzurda_join(
    language: u32,
    prefix: u32,
    line: &[u8],
    text: &mut [u8],
    map: &mut [u16],
) -> u64
    ensures value { result ≡ coded (join_call (language_of language) (prefix_of prefix) line.now (length text.old) (length map.old)).answer }
    ensures text_after { text.new ≡ (join_call (language_of language) (prefix_of prefix) line.now (length text.old) (length map.old)).text }
    ensures map_after { map.new ≡ (join_call (language_of language) (prefix_of prefix) line.now (length text.old) (length map.old)).map }
{
    count_code(source::join_line(dialect_of(language, prefix), line, text, map))
}

// Map-back: 0, and the physical range of a joined one in the two lent numbers.
#[unsafe(no_mangle)]
pub extern "C" fn pelzurda_map_back(
    map: &[u16],
    text_len: usize,
    start: usize,
    end: usize,
    span: &mut [u64; 2],
) -> u64
    ensures value { result ≡ coded_yes (span_answer map.now text_len start end) }
    ensures span_after { span.new ≡ span_ends (span_answer map.now text_len start end) }
{
    match source::map_back(map, text_len, start, end) {
        Ok(found) => {
            *span = [found.start as u64, found.end as u64];
            0
        }
        Err(refused) => {
            *span = [0, 0];
            code_of(refused)
        }
    }
}

// Content copy: the length of the copy, which fills the front of its slots.
#[unsafe(no_mangle)]
pub extern "C" fn pelzurda_copy(content: &[u8], copy: &mut [u8]) -> u64
    ensures value { result ≡ coded (copy_call content.now (length copy.old)).answer }
    ensures copy_after { copy.new ≡ (copy_call content.now (length copy.old)).copy }
{
    count_code(source::copy_content(content, copy))
}

// Book check: 0 for a valid book.
#[unsafe(no_mangle)]
pub extern "C" fn pelzurda_check_book(book: &[u8]) -> u64
    ensures { result ≡ coded_yes (book_call book.now) }
{
    match rulebook::check_book(book) {
        Ok(()) => 0,
        Err(refused) => code_of(refused),
    }
}

// Clause sequence: the number of clauses, whose records fill the front of the slots.
#[unsafe(no_mangle)]
pub extern "C" fn pelzurda_sequence(
    book: &[u8],
    text: &[u8],
    records: &mut [ClauseRecord],
    rest: &mut [u64; 1],
) -> u64
    ensures { record { answer = result; records = records.new; rest = rest.new }
        ≡ sequence_coded (sequence_call book.now text.now (length records.old)) }
{
    sequence_code(clause::parse_sequence(book, text, records), rest)
}

// The whole line: the directive's entry in the book, with the joined text, its map and the clause records at the front of their slots.
#[unsafe(no_mangle)]
pub extern "C" fn pelzurda_line(
    language: u32,
    prefix: u32,
    book: &[u8],
    line: &[u8],
    text: &mut [u8],
    map: &mut [u16],
    records: &mut [ClauseRecord],
    reading: &mut [u64; 4],
) -> u64
    ensures { record { answer = result; text = text.new; map = map.new; records = records.new; reading = reading.new }
        ≡ line_coded (line_call (language_of language) (prefix_of prefix) book.now line.now (length text.old) (length map.old) (length records.old)) }
{
    let dialect = dialect_of(language, prefix);
    line_code(
        reader::read_line(dialect, book, line, text, map, records),
        reading,
    )
}

// Many lines under one check of the book: the number of lines that were answered, each in its slot. Line i ends at its end number, and starts where the
// one before has ended; its slot holds its answer with the four numbers of its reading. Text and map are working space, zeroed at the end; so many record slots a line may take.
#[unsafe(no_mangle)]
pub extern "C" fn pelzurda_lines(
    language: u32,
    prefix: u32,
    book: &[u8],
    lines: &[u8],
    ends: &[usize],
    text: &mut [u8],
    map: &mut [u16],
    slots: usize,
    answers: &mut [[u64; 5]],
) -> u64
    ensures { record { count = result; text = text.new; map = map.new; answers = answers.new }
        ≡ lines_call (language_of language) (prefix_of prefix) book.now lines.now ends.now (length text.old) (length map.old) slots (length answers.old) }
{
    let mut index = Index::new();
    let checked = rulebook::checked(book, &mut index);
    let compacts = CompactNames::for_lines(&checked);
    let mut reader = LineReader {
        dialect: dialect_of(language, prefix),
        book,
        checked,
        compacts: compacts.as_ref(),
        text,
        map,
        slots,
    };
    let count = answer_parts(&mut reader, lines, ends, answers);
    text.fill(0);
    map.fill(0);
    count as u64
}

// Many clause sequences under one check of the book: the number of texts that were answered, each in its slot. Text i ends at its end number, and starts
// where the one before has ended; its slot holds its count of clauses and the place of its unread rest. So many record slots a text may take.
#[unsafe(no_mangle)]
pub extern "C" fn pelzurda_sequences(
    book: &[u8],
    texts: &[u8],
    ends: &[usize],
    slots: usize,
    answers: &mut [[u64; 2]],
) -> u64
    ensures { record { count = result; answers = answers.new }
        ≡ sequences_call book.now texts.now ends.now slots (length answers.old) }
{
    let mut index = Index::new();
    let mut reader = SequenceReader {
        book,
        checked: rulebook::checked(book, &mut index),
        slots,
    };
    answer_parts(&mut reader, texts, ends, answers) as u64
}
