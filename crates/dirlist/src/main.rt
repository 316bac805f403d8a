// Lists the directive line of standard input, C with omp, under the book `rules.drb`: its name, its clauses and the unread rest, by physical places.
#![tactic(auto)]

mod list;

ghost use Rattle.std.specs.Prelude.{◌≤◌, ◌<◌, length, take, IfOk};
ghost use Rattle.std.specs.Io.KnownBytes.{Consumes, IsAtEnd};

use clause::ClauseRecord;
use lexer::{Dialect, Language, Prefix};
use std::io::Read;
use std::rt::Files;
use std::{fs, io};

const C_OMP: Dialect = Dialect {
    language: Language::C,
    prefix: Prefix::Omp,
};

// Reads until the buffer is full or the input ends, and returns how many bytes stand at the buffer's start: the input's next ones, and all of them where the buffer has room for more.
// A `take(..).read_to_end(..)` was tried: none of these three clauses closes, since it says nothing of what is left in the reader, nor, where its bytes are unknown, that no more than the limit came.
fn read_full<R: Read>(input: &mut R, buffer: &mut [u8]) -> io::Result<usize>
    ensures bound { IfOk result (λ n. n ≤ length buffer.old) }
    ensures bytes { IfOk result (λ n. Consumes (R.remaining input.old) (R.remaining input.new) (take n buffer.new)) }
    ensures whole { IfOk result (λ n. n < length buffer.old → IsAtEnd (R.remaining input.new)) }
{
    let mut done = 0;
    // by what a read gives
    while done < buffer.len() {
        let n = input.read(&mut buffer[done..])?;
        if n == 0 {
            break;
        }
        done += n;
    }
    Ok(done)
}

// The book's bytes, none if it can't be opened; a read that fails is an error. One byte more than the longest book is read, to see a book that goes on.
fn read_book(rt: &impl Files, book: &mut [u8]) -> io::Result<usize>
    ensures { IfOk result (λ n. n ≤ length book.old) }
{
    match fs::open(rt, "rules.drb") {
        Ok(mut file) => read_full(&mut file, book),
        Err(_) => Ok(0),
    }
}

fn print_line(
    rt: &impl Print,
    book: &[u8],
    line: &[u8],
    text: &mut [u8],
    map: &mut [u16],
) -> io::Result<()> {
    let records = [ClauseRecord::default(); 512];
    let done = reader::read_line_array(C_OMP, book, line, text, map, 512, records);
    match done.answer {
        Ok(reading) => list::reading(rt, reading, &done.records, map),
        Err(refused) => list::refused(rt, refused, line, text, map),
    }
}

fn main(rt: HostRuntime) -> io::Result<()> {
    // Fixed memory: nothing longer than this is read.
    let mut book = [0u8; 33415];
    let b = read_book(&rt, &mut book)?;
    // One byte more than the longest line, to see refusal 1.
    let mut line = [0u8; 16385];
    let n = read_full(&mut rt.stdin(), &mut line)?;
    let mut text = [0u8; 16385];
    let mut map = [0u16; 16386];
    print_line(&rt, &book[..b], &line[..n], &mut text, &mut map)
}
