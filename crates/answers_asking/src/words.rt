// The words of a line, and what number or bytes a word spells.
ghost use Rattle.std.specs.Prelude.{◌≤◌, ◌<◌, IfSome, length};

// How many words the line has: one, and one for each space.
pub(crate) fn count(line: &[u8]) -> usize {
    line.iter().filter(|b| **b == b' ').count() + 1
}

// The first `len` bytes of a text, or none where it has fewer.
pub(crate) fn front(text: &[u8], len: usize) -> &[u8] {
    text.get(..len).unwrap_or(b"")
}

// The number that a text of at least one decimal digit spells, if 64 bits hold it.
pub(crate) fn read_number(text: &[u8]) -> Option<usize> {
    if text.is_empty() {
        return None;
    }
    let mut number: usize = 0;
    for b in text {
        let digit = (*b as char).to_digit(10)?;
        number = number.checked_mul(10)?.checked_add(digit as usize)?;
    }
    Some(number)
}

// Does the text spell bytes: `-` for none, or pairs of lower-case hex digits, one pair at least?
pub(crate) fn is_hex(text: &[u8]) -> bool {
    match text {
        b"-" => true,
        b"" => false,
        _ => text.len() % 2 == 0 && text.iter().all(|b| hex_value(*b).is_some()),
    }
}

// Writes the bytes that the last `digits` bytes of the line's first `len` spell over the front of the line, and answers how
// many they are. By index, since what is written lies over what is read later.
pub(crate) fn read_bytes(line: &mut [u8], len: usize, digits: usize) -> usize
    ensures { result ≤ length line.new }
{
    if line.len() < len || len < digits {
        return 0;
    }
    let start = len - digits;
    let most = digits / 2;
    for n in 0..most {
        line[n] = byte_of(line[start + 2 * n], line[start + 2 * n + 1]);
    }
    most
}

fn byte_of(high: u8, low: u8) -> u8 {
    hex_value(high).unwrap_or(0) * 16 + hex_value(low).unwrap_or(0)
}

// The value of a lower-case hex digit.
fn hex_value(b: u8) -> Option<u8>
    ensures { IfSome result (λ n. n < 16) }
{
    match b {
        b'0'..=b'9' => Some(b - b'0'),
        b'a'..=b'f' => Some(b - b'a' + 10),
        _ => None,
    }
}
