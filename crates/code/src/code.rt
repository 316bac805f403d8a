// The code bytes of a text: a walk by a place that passes over quoted literals and comments.
ghost use Rattle.std.specs.Prelude.{◌≡◌, ◌&&◌, ◌+◌, ◌<◌, ◌≤◌, eqb, length, drop, get_or};
ghost use Rattle.ascii.specs.Ascii.{is_eol};
ghost use Rattle.ascii.specs.Text.{up_to};
ghost use Rattle.code.specs.Code.{is_c_like, is_fortran, has_escapes, hides_next, more, literal, block_end, quoted, commented, slashed, banged, piece, is_plain, scan_at, onward, Fits, Ends};

use crate::{CodeText, CommentStyle, Piece, Unclosed};
use ascii::sets::InLine;

impl CommentStyle {
    // Whether a backslash of a literal hides the byte after it.
    pub fn has_escapes(self) -> bool
        ensures { result ≡ has_escapes self }
    {
        matches!(self, CommentStyle::Block | CommentStyle::CLike)
    }

    pub fn is_c_like(self) -> bool
        ensures { result ≡ is_c_like self }
    {
        matches!(self, CommentStyle::CLike)
    }

    pub fn is_fortran(self) -> bool
        ensures { result ≡ is_fortran self }
    {
        matches!(self, CommentStyle::Fortran)
    }
}

// The end of a block comment, from a place inside it.
pub fn block_end(text: &[u8], from: usize) -> Option<usize>
    requires { from ≤ length text.now }
    ensures result_value { result ≡ more from (block_end (drop from text.now)) }
    ensures ends { Ends from (length text.now) result }
{
    for i in from..text.len() {
        if text[i] == b'*' && ascii::byte_at(text, i + 1) == b'/' {
            return Some(i + 2);
        }
    }
    None
}

// The end of a line comment, from a place inside it: LF or CR is its last byte.
pub fn line_end(text: &[u8], from: usize) -> usize
    requires { from ≤ length text.now }
    ensures value { result ≡ from + up_to is_eol (drop from text.now) }
    ensures lower_bound { (from ≤ result) × (result ≤ length text.now) }
{
    ascii::past_run::<InLine>(text, from)
}

// The block comment that `/*` at a place begins.
fn block_at(text: &[u8], at: usize) -> Piece
    requires { at + 2 ≤ length text.now }
    ensures value { result ≡ commented (block_end (drop (at + 2) text.now)) }
    ensures fits { Fits at (length text.now) result }
{
    match block_end(text, at + 2) {
        Some(end) => Piece::Hidden(end - at),
        None => Piece::OpenComment,
    }
}

// Whether a byte begins no literal and no comment, in any style: most bytes, so that a walk asks this first. By `|`, of which the compiler makes a set of
// bits: a `matches!` took seven instructions a byte in place of two.
pub fn is_plain(b: u8) -> bool
    ensures { result ≡ is_plain b }
{
    !((b == b'\'') | (b == b'"') | (b == b'/') | (b == b'!'))
}

impl CodeText<'_> {
    // Whether the quote q stands at a place and behind it. The next byte is asked for behind a quote alone.
    fn is_doubled(&self, at: usize, q: u8) -> bool
        requires { at < length self.now.text.now }
        ensures { result ≡ (eqb (get_or self.now.text.now at 0) q && eqb (get_or self.now.text.now (at + 1) 0) q) }
    {
        self.text[at] == q && ascii::byte_at(self.text, at + 1) == q
    }

    // Whether the byte at a place of a literal in q keeps the one after it inside.
    pub fn hides_next(&self, at: usize, q: u8) -> bool
        requires { at < length self.now.text.now }
        ensures { result ≡ hides_next self.now.style q (get_or self.now.text.now at 0) (get_or self.now.text.now (at + 1) 0) }
    {
        let escapes = self.style.has_escapes();
        (escapes && self.text[at] == b'\\') || self.is_doubled(at, q)
    }

    // The end of a literal in q, from a place inside it that has no byte or one.
    fn last_end(&self, at: usize, q: u8) -> Option<usize>
        requires { (length self.now.text.now ≤ at + 1) × (at ≤ length self.now.text.now + 1) }
        ensures result_value { result ≡ more at (literal self.now.style q 0 (drop at self.now.text.now)) }
        ensures ends { Ends at (length self.now.text.now) result }
    {
        if self.text.len() <= at {
            return None;
        }
        if self.hides_next(at, q) {
            return None;
        }
        if self.text[at] == q {
            return Some(at + 1);
        }
        None
    }

    // The end of a literal in q, from a place inside it.
    pub fn quote_end(&self, from: usize, q: u8) -> Option<usize>
        requires { from ≤ length self.now.text.now }
        ensures result_value { result ≡ more from (literal self.now.style q 0 (drop from self.now.text.now)) }
        ensures ends { Ends from (length self.now.text.now) result }
    {
        let text = self.text;
        let mut i = from;
        // by one byte, or two where the second is hidden; the last apart, so that here the byte behind is read with no look for the text's end
        while i + 1 < text.len() {
            if self.hides_next(i, q) {
                i += 2;
            } else if text[i] == q {
                return Some(i + 1);
            } else {
                i += 1;
            }
        }
        self.last_end(i, q)
    }

    // The literal that an opening quote at a place begins.
    fn quote_at(&self, at: usize) -> Piece
        requires { at < length self.now.text.now }
        ensures value { result ≡ quoted (literal self.now.style (get_or self.now.text.now at 0) 0 (drop (at + 1) self.now.text.now)) }
        ensures fits { Fits at (length self.now.text.now) result }
    {
        match self.quote_end(at + 1, self.text[at]) {
            Some(end) => Piece::Hidden(end - at),
            None => Piece::OpenQuote,
        }
    }

    // What a slash at a place begins.
    fn slash_at(&self, at: usize) -> Piece
        requires { at < length self.now.text.now }
        ensures value { result ≡ slashed self.now.style (drop (at + 1) self.now.text.now) }
        ensures fits { Fits at (length self.now.text.now) result }
    {
        match ascii::byte_at(self.text, at + 1) {
            b'*' => block_at(self.text, at),
            b'/' if self.style.is_c_like() => Piece::Hidden(line_end(self.text, at + 2) - at),
            _ => Piece::Code,
        }
    }

    // What an exclamation mark at a place begins.
    fn bang_at(&self, at: usize) -> Piece
        requires { at < length self.now.text.now }
        ensures value { result ≡ banged self.now.style (drop (at + 1) self.now.text.now) }
        ensures fits { Fits at (length self.now.text.now) result }
    {
        if self.style.is_fortran() && ascii::byte_at(self.text, at + 1) != b'$' {
            return Piece::Hidden(line_end(self.text, at + 1) - at);
        }
        Piece::Code
    }

    // What a text has at a place.
    pub fn piece_at(&self, at: usize) -> Piece
        requires { at < length self.now.text.now }
        ensures value { result ≡ piece self.now.style (drop at self.now.text.now) }
        ensures fits { Fits at (length self.now.text.now) result }
    {
        match self.text[at] {
            b'\'' | b'"' => self.quote_at(at),
            b'/' => self.slash_at(at),
            b'!' => self.bang_at(at),
            _ => Piece::Code,
        }
    }

    // The first literal or comment without an end, from a place on.
    pub fn first_unclosed(&self, from: usize) -> Option<Unclosed>
        requires { from ≤ length self.now.text.now }
        ensures { result ≡ (scan_at self.now.style self.now.text.now from).fault }
    {
        let text = self.text;
        let mut i = from;
        // by pieces
        while i < text.len() {
            if is_plain(text[i]) {
                i += 1;
            } else {
                match self.piece_at(i) {
                    Piece::Code => i += 1,
                    Piece::Hidden(n) => i += n,
                    Piece::OpenQuote => return Some(Unclosed::Quote(i)),
                    Piece::OpenComment => return Some(Unclosed::Comment(i)),
                }
            }
        }
        None
    }

    // The next byte of code from a place on, or the text's end where there is none. No Option: the walks over a text's code go on while their place is
    // before its end, and would have to turn a None into that end.
    pub fn next_code(&self, from: usize) -> usize
        requires { from ≤ length self.now.text.now }
        ensures from_value { (scan_at self.now.style self.now.text.now from).codes ≡ onward self.now.style self.now.text.now result }
        ensures lower_bound { (from ≤ result) × (result ≤ length self.now.text.now) }
    {
        let text = self.text;
        let mut i = from;
        // by pieces
        while i < text.len() {
            if is_plain(text[i]) {
                return i;
            }
            match self.piece_at(i) {
                Piece::Code => return i,
                Piece::Hidden(n) => i += n,
                Piece::OpenQuote | Piece::OpenComment => return text.len(),
            }
        }
        i
    }
}
