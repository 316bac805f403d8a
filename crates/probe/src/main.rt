// Answers the requests of standard input, one a line, on standard output, one line each.
#![tactic(auto)]

mod back;
mod book;
mod buffers;
mod calls;
mod copy;
mod form;
mod join;
mod line;
mod print;
mod sequence;
mod slots;
mod split;
mod trim;
mod words;
mod work;

use buffers::{Answers, Gathered};
use std::io;
use std::io::{ErrorKind, Read, Stdin, Write};
use work::{Lent, Spelled};

// A request of so many bytes, its line's end apart, is too long. The length alone says so: a kind beside it would say the same again.
const TOO_LONG: usize = 262144;

// The words of the longest request; one more tells that there are too many.
const MOST_WORDS: usize = 8;

// How much is read at once.
const CHUNK: usize = 16384;

// Puts the words of a line at the start of an array, as far as it goes.
fn words_of<'w, 'l>(line: &'l [u8], words: &'w mut [&'l [u8]; MOST_WORDS + 1]) -> &'w [&'l [u8]] {
    let mut rest = line.split(|b| *b == b' ');
    for i in 0..MOST_WORDS + 1 {
        match rest.next() {
            Some(word) => words[i] = word,
            None => return &words[..i],
        }
    }
    words
}

// The answer to a request, and the end of its line.
fn answer(
    line: &[u8],
    spelled: &mut Spelled,
    lent: &mut Lent,
    out: &mut impl Write,
) -> io::Result<()> {
    if line.len() == TOO_LONG {
        return out.write_all(b"bad request\n");
    }
    let mut words: [&[u8]; MOST_WORDS + 1] = [&[]; MOST_WORDS + 1];
    match calls::call_of(words_of(line, &mut words), spelled) {
        Some(call) => call.answer(lent, out),
        None => out.write_all(b"bad request\n"),
    }
}

// Answers the requests that end in a chunk, and gathers the start of the next: a line's end stands before each piece but the first. What a request that is too long has beyond its room is passed over.
fn take_chunk(
    chunk: &[u8],
    line: &mut Gathered<TOO_LONG>,
    spelled: &mut Spelled,
    lent: &mut Lent,
    out: &mut impl Write,
) -> io::Result<()> {
    for (i, piece) in chunk.split(|b| *b == b'\n').enumerate() {
        if i > 0 {
            answer(line.as_slice(), spelled, lent, out)?;
            line.clear();
        }
        line.add(piece);
    }
    Ok(())
}

// A proved loop has to end, and nothing says that the input does: it has more turns than any run uses up. Where a read fails, what was read before is answered first. A last request may lack its line's end.
fn run(
    mut input: Stdin,
    chunk: &mut [u8],
    line: &mut Gathered<TOO_LONG>,
    spelled: &mut Spelled,
    lent: &mut Lent,
    out: &mut impl Write,
) -> io::Result<()> {
    let mut end = Ok(());
    for _ in 0..u64::MAX {
        match input.read(chunk) {
            Ok(0) => break,
            Ok(n) => take_chunk(&chunk[..n], line, spelled, lent, out)?,
            Err(e) if e.kind() == ErrorKind::Interrupted => {}
            Err(e) => {
                end = Err(e);
                break;
            }
        }
    }
    if !line.as_slice().is_empty() {
        answer(line.as_slice(), spelled, lent, out)?;
    }
    out.flush()?;
    end
}

fn main(rt: HostRuntime) -> io::Result<()> {
    let mut spelled = Spelled {
        first: [0; 40000],
        second: [0; 40000],
        numbers: [0; 20000],
    };
    let mut lent = Lent {
        bytes: [0; 20000],
        numbers: [0; 20000],
    };
    let mut chunk = [0; CHUNK];
    let mut line = Gathered::new();
    let mut out = Answers::new(rt.stdout());
    run(
        rt.stdin(),
        &mut chunk,
        &mut line,
        &mut spelled,
        &mut lent,
        &mut out,
    )
}
