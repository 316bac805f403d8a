// Bytes gathered in arrays, so that the probe needs no allocator: a request, and the answers that wait to be written.
ghost use Rattle.std.specs.Prelude.{◌≤◌, length};

use std::io;
use std::io::{Stdout, Write};

// The first `len` bytes of an array of N.
#[derive(Drop)]
pub struct Gathered<const N: usize> {
    bytes: [u8; N],
    len: usize,
    ghost within: { len ≤ N },
}

impl<const N: usize> Gathered<N> {
    pub fn new() -> Gathered<N> {
        Gathered {
            bytes: [0; N],
            len: 0,
        }
    }

    pub fn as_slice(&self) -> &[u8] {
        &self.bytes[..self.len]
    }

    pub fn clear(&mut self) {
        self.len = 0;
    }

    // Takes as many bytes as there is room for, and tells how many.
    pub fn add(&mut self, bytes: &[u8]) -> usize
        ensures { result ≤ length bytes.now }
    {
        let all = &mut self.bytes[..];
        let room = &mut all[self.len..];
        let n = bytes.len().min(room.len());
        room[..n].copy_from_slice(&bytes[..n]);
        self.len += n;
        n
    }
}

// How many bytes of answers are written at once.
const ROOM: usize = 65536;

// Standard output behind an array that is written whenever it is full.
#[derive(Drop)]
pub struct Answers {
    to: Stdout,
    waiting: Gathered<ROOM>,
}

impl Answers {
    pub fn new(to: Stdout) -> Answers {
        Answers {
            to,
            waiting: Gathered::new(),
        }
    }

    // Takes bytes for which there was no room. Stands apart, so that what there is room for is inlined.
    #[cold]
    #[inline(never)]
    fn write_beyond(&mut self, bytes: &[u8]) -> io::Result<()> {
        for piece in bytes.chunks(ROOM) {
            self.flush()?;
            self.waiting.add(piece);
        }
        Ok(())
    }
}

impl Write for Answers {
    fn write(&mut self, bytes: &[u8]) -> io::Result<usize> {
        self.write_all(bytes)?;
        Ok(bytes.len())
    }

    fn flush(&mut self) -> io::Result<()> {
        self.to.write_all(self.waiting.as_slice())?;
        self.waiting.clear();
        Ok(())
    }

    #[inline(always)]
    fn write_all(&mut self, bytes: &[u8]) -> io::Result<()> {
        let n = self.waiting.add(bytes);
        if n == bytes.len() {
            return Ok(());
        }
        self.write_beyond(&bytes[n..])
    }
}
