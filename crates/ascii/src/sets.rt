// The sets of bytes of which runs are sought, each by its question of a byte.
ghost use Rattle.std.specs.Prelude.{◌≡◌, ℕ, Bool};
ghost use Rattle.ascii.specs.Ascii.{is_trimmed, is_space, is_blank, is_word, is_low};
ghost use Rattle.ascii.specs.Text.{is_in_line};

use crate::class;

pub trait ByteSet {
    ghost holds: { ℕ → Bool };

    fn has(b: u8) -> bool
        ensures { result ≡ holds b };
}

#[derive(Clone, Copy)]
pub struct Trimmed;

#[derive(Clone, Copy)]
pub struct Space;

#[derive(Clone, Copy)]
pub struct Blank;

#[derive(Clone, Copy)]
pub struct Word;

// All but LF and CR.
#[derive(Clone, Copy)]
pub struct InLine;

// All up to 127.
#[derive(Clone, Copy)]
pub struct Low;

impl ByteSet for Trimmed {
    ghost holds = { is_trimmed };

    fn has(b: u8) -> bool {
        class::is_trimmed(b)
    }
}

impl ByteSet for Space {
    ghost holds = { is_space };

    fn has(b: u8) -> bool {
        class::is_space(b)
    }
}

impl ByteSet for Blank {
    ghost holds = { is_blank };

    fn has(b: u8) -> bool {
        class::is_blank(b)
    }
}

impl ByteSet for Word {
    ghost holds = { is_word };

    fn has(b: u8) -> bool {
        class::is_word(b)
    }
}

impl ByteSet for InLine {
    ghost holds = { is_in_line };

    fn has(b: u8) -> bool {
        !class::is_eol(b)
    }
}

impl ByteSet for Low {
    ghost holds = { is_low };

    fn has(b: u8) -> bool {
        b <= 127
    }
}
