// The classes of the 256 bytes, the questions that steps ask of a byte, by its class or before it, and the fold of a letter.
ghost use Rattle.std.specs.Prelude.{◌≡◌, ◌≤◌};
ghost use Rattle.ascii.specs.Ascii.{within, class_of, is_trimmed, is_space, is_blank, is_eol, is_digit, is_letter, is_word, fold as folded};

// Numbers and no enum, so that a range of classes is one comparison: the table of 256 class numbers is a form that the project names.
// 1 blank and tab, 2 LF and CR, 3 FF, 4 VT, 5 digits, 6 upper-case letters, 7 lower-case letters, 8 underscore, 0 any other byte.
const CLASSES: [u8; 256] = [
    0, 0, 0, 0, 0, 0, 0, 0, 0, 1, 2, 4, 3, 2, 0, 0, 0, 0, 0, 0, 0, 0, 0, 0, 0, 0, 0, 0, 0, 0, 0, 0,
    1, 0, 0, 0, 0, 0, 0, 0, 0, 0, 0, 0, 0, 0, 0, 0, 5, 5, 5, 5, 5, 5, 5, 5, 5, 5, 0, 0, 0, 0, 0, 0,
    0, 6, 6, 6, 6, 6, 6, 6, 6, 6, 6, 6, 6, 6, 6, 6, 6, 6, 6, 6, 6, 6, 6, 6, 6, 6, 6, 0, 0, 0, 0, 8,
    0, 7, 7, 7, 7, 7, 7, 7, 7, 7, 7, 7, 7, 7, 7, 7, 7, 7, 7, 7, 7, 7, 7, 7, 7, 7, 7, 0, 0, 0, 0, 0,
    0, 0, 0, 0, 0, 0, 0, 0, 0, 0, 0, 0, 0, 0, 0, 0, 0, 0, 0, 0, 0, 0, 0, 0, 0, 0, 0, 0, 0, 0, 0, 0,
    0, 0, 0, 0, 0, 0, 0, 0, 0, 0, 0, 0, 0, 0, 0, 0, 0, 0, 0, 0, 0, 0, 0, 0, 0, 0, 0, 0, 0, 0, 0, 0,
    0, 0, 0, 0, 0, 0, 0, 0, 0, 0, 0, 0, 0, 0, 0, 0, 0, 0, 0, 0, 0, 0, 0, 0, 0, 0, 0, 0, 0, 0, 0, 0,
    0, 0, 0, 0, 0, 0, 0, 0, 0, 0, 0, 0, 0, 0, 0, 0, 0, 0, 0, 0, 0, 0, 0, 0, 0, 0, 0, 0, 0, 0, 0, 0,
];

// The table as it lies in memory. A constant would be written to the stack at each look-up.
static TABLE: [u8; 256] = CLASSES;

// The class of a byte, by the table.
pub fn class_of(b: u8) -> u8
    ensures { result ≡ class_of b }
{
    TABLE[b as usize]
}

// White space of the classes from 1 to a last one. The common bytes are answered by a comparison before their class is asked for.
fn is_white<const LAST: u8>(b: u8) -> bool
    requires { (1 ≤ LAST) × (LAST ≤ 4) }
    ensures { result ≡ within 1 LAST (class_of b) }
{
    if b' ' < b {
        return false;
    }
    if b == b' ' {
        return true;
    }
    let k = class_of(b);
    (1 <= k) & (k <= LAST)
}

// What trimming takes: 9 to 13 and 32.
pub fn is_trimmed(b: u8) -> bool
    ensures { result ≡ is_trimmed b }
{
    is_white::<4>(b)
}

// White space of trivia: 9, 10, 12, 13 and 32.
pub fn is_space(b: u8) -> bool
    ensures { result ≡ is_space b }
{
    is_white::<3>(b)
}

// Blank or tab.
pub fn is_blank(b: u8) -> bool
    ensures { result ≡ is_blank b }
{
    is_white::<1>(b)
}

// LF or CR.
pub fn is_eol(b: u8) -> bool
    ensures { result ≡ is_eol b }
{
    if b'\r' < b {
        return false;
    }
    class_of(b) == 2
}

pub fn is_digit(b: u8) -> bool
    ensures { result ≡ is_digit b }
{
    class_of(b) == 5
}

// A letter of either case, asked before the class of a byte.
pub fn is_letter(b: u8) -> bool
    ensures { result ≡ is_letter b }
{
    ((b'A' <= b) & (b <= b'Z')) | ((b'a' <= b) & (b <= b'z'))
}

// A byte of a word: a letter, a digit or `_`.
pub fn is_word(b: u8) -> bool
    ensures { result ≡ is_word b }
{
    if is_letter(b) {
        return true;
    }
    // what mostly ends a word: blanks, parentheses, the comma
    if b < b'0' {
        return false;
    }
    if (b <= b'9') | (b == b'_') {
        return true;
    }
    5 <= class_of(b)
}

// The lower-case letter of an upper-case one; every other byte is kept. Worked out by arithmetic, so that no caller has a branch for it.
pub fn fold(b: u8) -> u8
    ensures { result ≡ folded b }
{
    let x = b as u16;
    // the bytes turned so that `A` to `Z` are the last, 230 to 255: divided by 230 these give 1, all others 0
    let upper = (x + 165) % 256 / 230;
    (x + upper * 32) as u8
}
