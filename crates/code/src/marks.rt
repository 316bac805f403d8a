// The marks of a text: from which of its places on no literal or comment is unclosed, found in one walk from its back. Each match asks the mark of its place,
// so that the rest is not scanned anew for each.
ghost use Rattle.std.specs.Prelude.{◌≡◌, true, cond, ◌+◌, ◌-◌, ◌/◌, ◌^◌, ◌<◌, ◌≤◌, ◌⊎◌, length, eqb, get_or};
ghost use Rattle.std.specs.List.{list_all};
ghost use Rattle.code.specs.Marks.{clean, quote_clean, block_clean, line_clean, past_end, flags_at, near_at, marked_from, Marked, is_dull, dulls};

use crate::{CodeText, Flags, MarkBits, Near};

impl Flags {
    // Inside a literal in q.
    fn literal(self, q: u8) -> bool
        ensures { result ≡ cond (eqb q 39) self.single self.double }
    {
        if q == b'\'' { self.single } else { self.double }
    }
}

// The flags behind a text: nothing is unclosed but what is open already.
fn past_end() -> Flags
    ensures { result ≡ past_end }
{
    Flags {
        code: true,
        single: false,
        double: false,
        block: false,
        line: true,
    }
}

// Whether a byte begins, ends and hides nothing. By `|`, of which the compiler makes vector code where eight are asked; a `matches!` is a set of bits.
fn is_dull(b: u8) -> bool
    ensures { result ≡ is_dull b }
{
    !((b == b'\'')
        | (b == b'"')
        | (b == b'/')
        | (b == b'!')
        | (b == b'\\')
        | (b == b'*')
        | (b == b'\n')
        | (b == b'\r'))
}

// Whether eight bytes from a place on do not. In one expression without branches, of which the compiler makes vector code; of a loop it makes none.
fn is_dull_eight(text: &[u8], at: usize) -> bool
    requires { at + 8 ≤ length text.now }
    ensures { result ≡ dulls text.now at 8 }
{
    is_dull(text[at])
        & is_dull(text[at + 1])
        & is_dull(text[at + 2])
        & is_dull(text[at + 3])
        & is_dull(text[at + 4])
        & is_dull(text[at + 5])
        & is_dull(text[at + 6])
        & is_dull(text[at + 7])
}

// Whether 32 bytes from a place on do not.
fn is_dull_cell(text: &[u8], at: usize) -> bool
    requires { at + 32 ≤ length text.now }
    ensures { result ≡ dulls text.now at 32 }
{
    is_dull_eight(text, at)
        & is_dull_eight(text, at + 8)
        & is_dull_eight(text, at + 16)
        & is_dull_eight(text, at + 24)
}

// Whether no byte of a text does: for a few bytes.
fn is_dull_text(text: &[u8]) -> bool
    ensures { result ≡ list_all is_dull text.now }
{
    text.iter().all(|b| is_dull(*b))
}

// A place of a text, with the flags N places behind it: from back to front, those of a place follow from those behind it. That the place is inside is asked by
// those methods that ask its byte and is no ghost field: the last cell has spots behind the text's end.
#[derive(Clone, Copy)]
struct Spot<'a, const N: usize> {
    code: CodeText<'a>,
    at: usize,
    near: Near,
    ghost known: { near ≡ near_at code.style code.text.now (at + N) },
}

impl Spot<'_, 1> {
    // Inside a literal in q.
    fn in_quote(&self, q: u8) -> bool
        requires at_in_bounds { (self.now.at < length self.now.code.text.now) × ((q ≡ 39) ⊎ (q ≡ 34)) }
        ensures { result ≡ quote_clean self.now.code.style self.now.code.text.now q self.now.at }
    {
        if self.code.hides_next(self.at, q) {
            self.near.two.literal(q)
        } else if self.code.text[self.at] == q {
            self.near.one.code
        } else {
            self.near.one.literal(q)
        }
    }

    // Inside a block comment.
    fn in_block(&self) -> bool
        requires { self.now.at < length self.now.code.text.now }
        ensures { result ≡ block_clean self.now.code.style self.now.code.text.now self.now.at }
    {
        if self.code.text[self.at] == b'*' && ascii::byte_at(self.code.text, self.at + 1) == b'/' {
            self.near.two.code
        } else {
            self.near.one.block
        }
    }

    // Inside a line comment.
    fn in_line(&self) -> bool
        requires { self.now.at < length self.now.code.text.now }
        ensures { result ≡ line_clean self.now.code.style self.now.code.text.now self.now.at }
    {
        if ascii::class::is_eol(self.code.text[self.at]) {
            self.near.one.code
        } else {
            self.near.one.line
        }
    }

    // In code, at a slash.
    fn at_slash(&self) -> bool
        requires { (self.now.at < length self.now.code.text.now) × (get_or self.now.code.text.now self.now.at 0 ≡ 47) }
        ensures { result ≡ clean self.now.code.style self.now.code.text.now self.now.at }
    {
        match ascii::byte_at(self.code.text, self.at + 1) {
            b'*' => self.near.two.block,
            b'/' if self.code.style.is_c_like() => self.near.two.line,
            _ => self.near.one.code,
        }
    }

    // In code, at an exclamation mark.
    fn at_bang(&self) -> bool
        requires { (self.now.at < length self.now.code.text.now) × (get_or self.now.code.text.now self.now.at 0 ≡ 33) }
        ensures { result ≡ clean self.now.code.style self.now.code.text.now self.now.at }
    {
        if self.code.style.is_fortran() && ascii::byte_at(self.code.text, self.at + 1) != b'$' {
            self.near.one.line
        } else {
            self.near.one.code
        }
    }

    // In code.
    fn in_code(&self) -> bool
        requires { self.now.at < length self.now.code.text.now }
        ensures { result ≡ clean self.now.code.style self.now.code.text.now self.now.at }
    {
        match self.code.text[self.at] {
            b'\'' => self.near.one.single,
            b'"' => self.near.one.double,
            b'/' => self.at_slash(),
            b'!' => self.at_bang(),
            _ => self.near.one.code,
        }
    }

    // The flags of the place. Most bytes change none.
    fn flags(&self) -> Flags
        ensures { result ≡ flags_at self.now.code.style self.now.code.text.now self.now.at }
    {
        if self.code.text.len() <= self.at {
            return past_end();
        }
        if is_dull(self.code.text[self.at]) {
            return self.near.one;
        }
        Flags {
            code: self.in_code(),
            single: self.in_quote(b'\''),
            double: self.in_quote(b'"'),
            block: self.in_block(),
            line: self.in_line(),
        }
    }
}

impl<const N: usize> Spot<'_, N> {
    // The marks of its N places, if none of their bytes changes the flags; in `all` the lowest N bits are set.
    fn dull(&self, all: u32) -> MarkBits
        requires { ((2 ≤ N) × (all ≡ 2 ^ N - 1)) × ((self.now.at + N ≤ length self.now.code.text.now) × (dulls self.now.code.text.now self.now.at N ≡ true)) }
        ensures { result ≡ marked_from self.now.code.style self.now.code.text.now self.now.at N }
    {
        MarkBits {
            bits: if self.near.one.code { all } else { 0 },
            near: Near {
                one: self.near.one,
                two: self.near.one,
            },
        }
    }
}

impl Spot<'_, 8> {
    // The marks of the eight places, one by one.
    fn mixed_octet(&self) -> MarkBits
        requires { self.now.at ≤ 16408 }
        ensures { result ≡ marked_from self.now.code.style self.now.code.text.now self.now.at 8 }
    {
        let mut near = self.near;
        let mut bits = 0;
        for k in (0..8).rev() {
            let spot: Spot<1> = Spot {
                code: self.code,
                at: self.at + k,
                near,
            };
            let here = spot.flags();
            near = Near {
                one: here,
                two: near.one,
            };
            bits = bits * 2 + u32::from(here.code);
        }
        MarkBits { bits, near }
    }

    // The marks of the eight places.
    fn octet(&self) -> MarkBits
        requires { self.now.at ≤ 16408 }
        ensures { result ≡ marked_from self.now.code.style self.now.code.text.now self.now.at 8 }
    {
        let text = self.code.text;
        if text.len() <= self.at {
            return MarkBits {
                bits: 255,
                near: Near {
                    one: self.near.one,
                    two: self.near.one,
                },
            };
        }
        if self.at + 8 <= text.len() && is_dull_eight(text, self.at) {
            return self.dull(0xFF);
        }
        self.mixed_octet()
    }
}

impl Spot<'_, 32> {
    // The marks of the 32 places, eight by eight. A loop of the shape of `mixed_octet`'s: one for both would need a trait for what marks a part, and be no
    // plainer.
    fn mixed_cell(&self) -> MarkBits
        requires { self.now.at ≤ 16384 }
        ensures { result ≡ marked_from self.now.code.style self.now.code.text.now self.now.at 32 }
    {
        let mut near = self.near;
        let mut bits = 0;
        for k in (0..4).rev() {
            let spot: Spot<8> = Spot {
                code: self.code,
                at: self.at + 8 * k,
                near,
            };
            let eight = spot.octet();
            near = eight.near;
            bits = bits * 256 + eight.bits;
        }
        MarkBits { bits, near }
    }

    // The marks of the 32 places where the text ends among them: mostly nothing there changes the flags of its end.
    fn last_cell(&self) -> MarkBits
        requires { (self.now.at ≤ 16384) × (self.now.at ≤ length self.now.code.text.now) }
        ensures { result ≡ marked_from self.now.code.style self.now.code.text.now self.now.at 32 }
    {
        if is_dull_text(&self.code.text[self.at..]) {
            let end = past_end();
            return MarkBits {
                bits: 0xFFFF_FFFF,
                near: Near { one: end, two: end },
            };
        }
        self.mixed_cell()
    }

    // The marks of the 32 places.
    fn cell(&self) -> MarkBits
        requires { (self.now.at ≤ 16384) × (self.now.at ≤ length self.now.code.text.now) }
        ensures { result ≡ marked_from self.now.code.style self.now.code.text.now self.now.at 32 }
    {
        let text = self.code.text;
        if text.len() < self.at + 32 {
            return self.last_cell();
        }
        if is_dull_cell(text, self.at) {
            return self.dull(0xFFFF_FFFF);
        }
        self.mixed_cell()
    }
}

impl CodeText<'_> {
    // The marks of a text, of 32 places in each number.
    pub fn fill_marks(&self, marks: &mut [u32])
        requires { (length self.now.text.now ≤ 16384) × (length self.now.text.now / 32 < length marks.old) }
        ensures { Marked self.now.style self.now.text.now marks.new }
    {
        let end = past_end();
        let mut near = Near { one: end, two: end };
        for k in (0..self.text.len() / 32 + 1).rev() {
            let spot: Spot<32> = Spot {
                code: *self,
                at: 32 * k,
                near,
            };
            let marked = spot.cell();
            marks[k] = marked.bits;
            near = marked.near;
        }
    }

    // Whether nothing is unclosed from a place on, by the marks.
    pub fn is_clean(&self, marks: &[u32], at: usize) -> bool
        requires { (at ≤ length self.now.text.now) × Marked self.now.style self.now.text.now marks.now }
        ensures { result ≡ clean self.now.style self.now.text.now at }
    {
        (marks[at / 32] >> (at % 32)) % 2 == 1
    }
}
