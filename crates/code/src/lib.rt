// Code bytes, brackets and the matching parenthesis: what quotes and comments leave of a text, and what closes what.
#![tactic(auto)]

pub mod brackets;
pub mod code;
pub mod marks;
pub mod matching;

ghost use Rattle.std.specs.Prelude.{ℕ, ◌≡◌, ◌≤◌, List, length};
ghost use Rattle.std.proofs.Common.{sym};
ghost use Rattle.code.specs.Bracket.{max_depth};
ghost use Rattle.code.specs.Stack.{stacked, array_of, length-stacked};

use std::marker::Model;

// Which comments are invisible besides block comments, and whose literals: in those of C a backslash hides the byte after it.
#[derive(Clone, Copy, Debug, PartialEq, Eq)]
pub enum CommentStyle {
    // none; literals of C
    Block,
    // `//` to the end of line; literals of C
    CLike,
    // `!` to the end of line, unless `$` follows; literals of Fortran
    Fortran,
    // none; literals of Fortran
    FortranBlock,
}

// A text, and what is invisible in it: its code bytes are what quotes and comments leave.
// A place is a plain number beside it, with its bound in each contract: a struct of both would be made anew at each step of a walk, and read no plainer.
#[derive(Clone, Copy)]
pub struct CodeText<'a> {
    pub text: &'a [u8],
    pub style: CommentStyle,
}

// What a text has at a place: a byte of code, a run of so many invisible bytes, or a literal or comment without an end. Walks match the four side by side, so it
// is no Result of an Option.
#[derive(Clone, Copy, Debug, PartialEq, Eq)]
pub enum Piece {
    Code,
    Hidden(usize),
    OpenQuote,
    OpenComment,
}

// A literal or comment without an end, with its place.
#[derive(Clone, Copy, Debug, PartialEq, Eq)]
pub enum Unclosed {
    Quote(usize),
    Comment(usize),
}

// The kinds of brackets.
#[derive(Clone, Copy, Debug, PartialEq, Eq)]
pub enum Bracket {
    Round,
    Square,
    Curly,
    Angle,
}

// How many brackets may be open at once.
const MAX_DEPTH: usize = 256;

// The open brackets: the closing byte of each, the outermost first, and how many they are. Seen as the list of these bytes, the innermost first.
// An array with a depth, as there is no heap; changed in place, as it is too many bytes to copy at each bracket. What is past the depth is zero, so that the
// list gives the fields back, as a copy asks.
#[derive(Clone, Copy)]
pub struct OpenBrackets {
    closing: [u8; MAX_DEPTH],
    depth: usize,
}

impl Model for OpenBrackets {
    ghost Value = { List ℕ };

    ghost view = { λ o. stacked o.closing o.depth };

    ghost invariant = { λ o. (o.depth ≤ max_depth) × (o.closing ≡ array_of (stacked o.closing o.depth)) };

    ghost inverse = { λ stack. record { closing = array_of stack; depth = length stack } };

    ghost inverse_ok = { λ o h i. record { closing = sym h.1 i; depth = length-stacked o.closing o.depth i } };
}

// Why a bracket cannot be taken: it closes none that it could, or it is the 257th open one.
#[derive(Clone, Copy, Debug, PartialEq, Eq)]
pub enum BracketError {
    Wrong,
    Deep,
}

// Why no place closes a parenthesis: nothing does, or the 257th bracket is open before, at this place.
#[derive(Clone, Copy, Debug, PartialEq, Eq)]
pub enum NoMatch {
    Unmatched,
    DeepAt(usize),
}

// Whether nothing is unclosed from a place on, if the place stands in code, inside a literal in `'` or in `"`, in a block comment, in a line comment.
#[derive(Clone, Copy, Debug, PartialEq, Eq)]
pub struct Flags {
    pub code: bool,
    pub single: bool,
    pub double: bool,
    pub block: bool,
    pub line: bool,
}

// The flags of a place and of the one behind it.
#[derive(Clone, Copy, Debug, PartialEq, Eq)]
pub struct Near {
    pub one: Flags,
    pub two: Flags,
}

// How many numbers the marks of the longest text take: one for each 32 places, and one for its end.
pub const MARK_CELLS: usize = 513;

// The marks of some places, the first in the lowest bit, with the flags at the first place.
#[derive(Clone, Copy, Debug, PartialEq, Eq)]
pub struct MarkBits {
    pub bits: u32,
    pub near: Near,
}
