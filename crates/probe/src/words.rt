// What the words of a request spell; None where a word spells no such thing.
ghost use Rattle.std.specs.Prelude.{◌<◌, ◌≤◌, length, IfSome};

// A number in decimal digits, at most `most`.
pub fn number(word: &[u8], most: usize) -> Option<usize>
    ensures { IfSome result (λ n. n ≤ most) }
{
    // `parse` would take a sign and leading zeros.
    if !matches!(word, [b'0'] | [b'1'..=b'9', ..]) {
        return None;
    }
    let n = str::from_utf8(word).ok()?.parse().ok()?;
    (n <= most).then_some(n)
}

// Whether a word is `1`, and not `0`.
pub fn flag(word: &[u8]) -> Option<bool> {
    match word {
        b"0" => Some(false),
        b"1" => Some(true),
        _ => None,
    }
}

// What a lower-case hexadecimal digit stands for; the library's `to_digit` takes upper case too.
fn hex_digit(b: u8) -> Option<u8>
    ensures { IfSome result (λ d. d < 16) }
{
    match b {
        b'0'..=b'9' => Some(b - b'0'),
        b'a'..=b'f' => Some(b - b'a' + 10),
        _ => None,
    }
}

// Bytes, two hexadecimal digits each or `-` for none, put at the start of a buffer.
pub fn hex<'s>(word: &[u8], buffer: &'s mut [u8]) -> Option<&'s [u8]>
    ensures { IfSome result (λ bytes. length bytes.now ≤ length buffer.old) }
{
    if matches!(word, b"-") {
        return Some(&[]);
    }
    if word.is_empty() || word.len() % 2 != 0 {
        return None;
    }
    let bytes = buffer.get_mut(..word.len() / 2)?;
    for (pair, byte) in word.chunks_exact(2).zip(bytes.iter_mut()) {
        *byte = hex_digit(pair[0])? * 16 + hex_digit(pair[1])?;
    }
    Some(bytes)
}

// 16-bit numbers, separated by commas, or `-` for none, put at the start of a buffer.
pub fn list<'s>(word: &[u8], buffer: &'s mut [u16]) -> Option<&'s [u16]>
    ensures { IfSome result (λ numbers. length numbers.now ≤ length buffer.old) }
{
    if matches!(word, b"-") {
        return Some(&[]);
    }
    let commas = word.iter().filter(|b| **b == b',').count();
    let numbers = buffer.get_mut(..commas + 1)?;
    for (item, slot) in word.split(|b| *b == b',').zip(numbers.iter_mut()) {
        *slot = number(item, 65535)? as u16;
    }
    Some(numbers)
}
