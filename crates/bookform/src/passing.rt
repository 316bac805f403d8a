// Entries whose form is right, passed at once. Nearly every entry of a book is, and what its bytes may be is asked of sixteen of them in one branch.
ghost use Rattle.std.specs.Prelude.{◌≡◌, true, ◌+◌, ◌-◌, ◌<◌, ◌≤◌, length, drop, get_or, IfSome};
ghost use Rattle.ascii.specs.Ascii.{is_word};
ghost use Rattle.bookform.specs.Format.{directives_left, bad_from};
ghost use Rattle.bookform.specs.Standing.{stands_behind, Behind, IsName, NameEnds, Passed, waits};

use crate::format::{clauses_left, directives_left, is_header, is_length, is_rule};
use crate::{Entries, EntryKind, Expect, Waiting};
use ascii::class::{is_letter, is_word};

// A byte of a word, asked without a branch: so the compiler asks it of sixteen at once. For this speed it stands beside `ascii::class::is_word`, which branches.
fn is_of_word(b: u8) -> bool
    ensures { result ≡ is_word b }
{
    ((b'0' <= b) & (b <= b'9')) | is_letter(b) | (b == b'_')
}

// Whether a byte may stand behind another that stands in a name: it is of a word, or it is the one between words and the other is not.
fn stands_behind(before: u8, b: u8, between: u8) -> bool
    ensures { result ≡ stands_behind between before b }
{
    is_of_word(b) | ((b == between) & (before != between))
}

// The same of the byte at a place of a book and the one before it.
fn stands_at<const BETWEEN: u8>(book: &[u8], at: usize) -> bool
    requires { (1 ≤ at) × (at < length book.now) }
    ensures { result ≡ stands_behind BETWEEN (get_or book.now (at - 1) 0) (get_or book.now at 0) }
{
    stands_behind(book[at - 1], book[at], BETWEEN)
}

// Whether each of the sixteen bytes of a book from a place on may stand behind the one before it, but for those before the first that is asked: they
// are numbered from 1, as the compiler takes no comparison with 0 together with the others. All are asked and no branch is between them, so that
// the compiler asks them at once.
fn sixteen_stand<const BETWEEN: u8>(book: &[u8], from: usize, first: u8) -> bool
    requires { (1 ≤ from) × (from + 16 ≤ length book.now) × (1 ≤ first) }
    ensures { result ≡ true → Behind BETWEEN book.now (from + first - 1) (from + 16) }
{
    ((1 < first) | stands_at::<BETWEEN>(book, from))
        & ((2 < first) | stands_at::<BETWEEN>(book, from + 1))
        & ((3 < first) | stands_at::<BETWEEN>(book, from + 2))
        & ((4 < first) | stands_at::<BETWEEN>(book, from + 3))
        & ((5 < first) | stands_at::<BETWEEN>(book, from + 4))
        & ((6 < first) | stands_at::<BETWEEN>(book, from + 5))
        & ((7 < first) | stands_at::<BETWEEN>(book, from + 6))
        & ((8 < first) | stands_at::<BETWEEN>(book, from + 7))
        & ((9 < first) | stands_at::<BETWEEN>(book, from + 8))
        & ((10 < first) | stands_at::<BETWEEN>(book, from + 9))
        & ((11 < first) | stands_at::<BETWEEN>(book, from + 10))
        & ((12 < first) | stands_at::<BETWEEN>(book, from + 11))
        & ((13 < first) | stands_at::<BETWEEN>(book, from + 12))
        & ((14 < first) | stands_at::<BETWEEN>(book, from + 13))
        & ((15 < first) | stands_at::<BETWEEN>(book, from + 14))
        & ((16 < first) | stands_at::<BETWEEN>(book, from + 15))
}

// The same between two places, byte by byte.
fn each_stands<const BETWEEN: u8>(book: &[u8], start: usize, end: usize) -> bool
    requires { (1 ≤ start) × (end ≤ length book.now) }
    ensures { result ≡ true → Behind BETWEEN book.now start end }
{
    for at in start..end {
        if !stands_at::<BETWEEN>(book, at) {
            return false;
        }
    }
    true
}

// The same by sixteens from the end on, of which the last may begin before the start. Only the first entry of a book has too few bytes before it.
fn all_stand<const BETWEEN: u8>(book: &[u8], start: usize, end: usize) -> bool
    requires { (1 ≤ start) × (end ≤ length book.now) }
    ensures { result ≡ true → Behind BETWEEN book.now start end }
{
    let mut left = end;
    while start < left {
        if left < 17 {
            return each_stands::<BETWEEN>(book, start, left);
        }
        let from = left - 16;
        let next = start.max(from);
        if !sixteen_stand::<BETWEEN>(book, from, (next - from + 1) as u8) {
            return false;
        }
        left = next;
    }
    true
}

// Whether what stands between two places is a name: words, and between two of them one byte, which is known when this is compiled. A last byte of a word
// may stand behind any, so a name of up to 18 bytes is asked in one branch.
fn is_name<const BETWEEN: u8>(book: &[u8], start: usize, end: usize) -> bool
    requires { (start < end) × (end ≤ length book.now) }
    ensures { result ≡ true → IsName BETWEEN start end book.now }
{
    is_word(book[start]) && all_stand::<BETWEEN>(book, start + 1, end - 1) && is_word(book[end - 1])
}

// The end of the name behind the length byte at a place, if both are right.
fn name_end<const BETWEEN: u8>(book: &[u8], place: usize) -> Option<usize>
    ensures { IfSome result (λ end. NameEnds BETWEEN place end book.now) }
{
    let size = *book.get(place)?;
    let length = usize::from(size);
    if is_length(size) && length < book.len() - place {
        let start = place + 1;
        let end = start + length;
        if is_name::<BETWEEN>(book, start, end) {
            return Some(end);
        }
    }
    None
}

// The end of the entry at a place, if its form is right. Between a directive's words stands a blank; a clause's name is one word, and `_` between its parts
// is of the word.
fn entry_end(book: &[u8], kind: EntryKind, at: usize) -> Option<usize>
    ensures { IfSome result (λ end. Passed kind at end book.now) }
{
    match kind {
        EntryKind::Directive => name_end::<b' '>(book, at),
        EntryKind::Clause => {
            if !is_rule(*book.get(at)?) {
                return None;
            }
            name_end::<b'_'>(book, at + 1)
        }
    }
}

// What is left of the entries from the first on whose form is not right.
fn entries_left(book: &[u8], entries: Entries) -> Entries
    requires { entries.first ≤ length book.now }
    ensures kind_value { (result.kind ≡ entries.kind) × (result.first ≤ length book.now) }
    ensures book_value { (c : _) → bad_from (waits entries.kind result.count c) result.first (drop result.first book.now)
        ≡ bad_from (waits entries.kind entries.count c) entries.first (drop entries.first book.now) }
{
    let mut first = entries.first;
    for done in 0..entries.count {
        let Some(end) = entry_end(book, entries.kind, first) else {
            return Entries {
                first,
                count: entries.count - done,
                ..entries
            };
        };
        first = end;
    }
    Entries {
        first,
        count: 0,
        ..entries
    }
}

// Whether a book has its whole header. Its bytes are asked by name, and no loop over them: so the compiler knows which rule each has.
fn has_header(book: &[u8]) -> bool
    ensures { result ≡ true → (9 ≤ length book.now)
        × (bad_from (directives_left (get_or book.now 7 0) (get_or book.now 8 0)) 9 (drop 9 book.now) ≡ bad_from (Expect.HeaderByte 0) 0 book.now) }
{
    if book.len() < 9 {
        return false;
    }
    is_header(0, book[0])
        & is_header(1, book[1])
        & is_header(2, book[2])
        & is_header(3, book[3])
        & is_header(4, book[4])
        & is_header(5, book[5])
        & is_header(6, book[6])
        & is_header(7, book[7])
}

// What is waited for behind the header and the entries whose form is right.
pub fn past_entries(book: &[u8]) -> Waiting
    ensures at_in_bounds { result.at ≤ length book.now }
    ensures book_value { bad_from result.expect result.at (drop result.at book.now) ≡ bad_from (Expect.HeaderByte 0) 0 book.now }
{
    if !has_header(book) {
        return Waiting {
            at: 0,
            expect: Expect::HeaderByte(0),
        };
    }
    let c = usize::from(book[8]);
    let directives = entries_left(
        book,
        Entries {
            kind: EntryKind::Directive,
            first: 9,
            count: usize::from(book[7]),
        },
    );
    if 0 < directives.count {
        return Waiting {
            at: directives.first,
            expect: directives_left(directives.count, c),
        };
    }
    let clauses = entries_left(
        book,
        Entries {
            kind: EntryKind::Clause,
            first: directives.first,
            count: c,
        },
    );
    Waiting {
        at: clauses.first,
        expect: clauses_left(clauses.count),
    }
}
