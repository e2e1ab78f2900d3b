// Bytes below 80, which are characters by themselves: how far a run of them goes, by words and by blocks. Rules: `ascii` in
// Utf8Read.antt of crate `text_scalars`, Runs.antt of crate `text_classes`, specs/Words.antt.
#![tactic(auto)]

ghost use Rattle.std.specs.Prelude.{◌≡◌, ◌==◌, true, ◌+◌, ◌*◌, ◌^◌, ◌<◌, ◌≤◌, length, drop};
ghost use Rattle.text_classes.specs.Runs.{run};
ghost use Rattle.text_classes.proofs.RunLaws.{Block, SameEnd};
ghost use Rattle.text_scalars.specs.Utf8Read.{ascii};
ghost use Rattle.text_ascii.specs.Words.{four_of};

use text_classes::{ByteSet, run_of};

// Whether s has 4 to 16 bytes, all of them ASCII: most strings of a document are short. Two words reach from one end to the
// other, and overlap where they are longer than s.
pub fn is_short_ascii(s: &[u8]) -> bool
    ensures { result ≡ true → run ascii s.now ≡ length s.now }
{
    let n = s.len();
    if 16 < n {
        return false;
    }
    if n < 4 {
        return false;
    }
    if n < 8 {
        return is_ascii_fours(s, n - 4);
    }
    if !is_ascii_word(s, 0) {
        return false;
    }
    is_ascii_word(s, n - 8)
}

// Whether the first four bytes and four from i on are ASCII, asked as `is_ascii_word` asks.
fn is_ascii_fours(s: &[u8], i: usize) -> bool
    requires { i + 4 ≤ length s.now }
    ensures { result ≡ true → Block ascii s.now 0 4 × Block ascii s.now i 4 }
{
    if four(s[0], s[1], s[2], s[3]) & 0x8080_8080 != 0 {
        return false;
    }
    four(s[i], s[i + 1], s[i + 2], s[i + 3]) & 0x8080_8080 == 0
}

// The place of the first byte from `start` on that is not ASCII, or the end; beyond the end `start` itself. Most runs between
// other characters are short: only after 32 bytes are blocks tried.
pub fn ascii_run(s: &[u8], start: usize) -> usize
    ensures { result ≡ start + run ascii (drop start s.now) }
{
    if s.len() < start {
        return start;
    }
    let near = ascii_words(s, start, 4);
    let mut i = near;
    if near == start + 32 {
        let wide = ascii_blocks(s, near);
        i = ascii_words(s, wide, 8);
    }
    run_of(Ascii, s, i)
}

#[derive(Clone, Copy)]
struct Ascii;

impl ByteSet for Ascii {
    ghost holds = { λ _. ascii };

    fn holds(self, b: u8) -> bool {
        b < 0x80
    }
}

// Passes over words of eight ASCII bytes, `most` of them at the most.
fn ascii_words(s: &[u8], start: usize, most: usize) -> usize
    requires { start ≤ length s.now }
    ensures { SameEnd (run ascii) s.now start result }
{
    let mut i = start;
    for _ in 0..most {
        if !is_ascii_word(s, i) {
            return i;
        }
        i += 8;
    }
    i
}

// Whether eight bytes from `i` on are there, and are ASCII: no high bit is on in the number that they make together,
// which the compiler reads at once.
pub fn is_ascii_word(s: &[u8], i: usize) -> bool
    ensures { result ≡ true → (i + 8 ≤ length s.now) × Block ascii s.now i 8 }
{
    if s.len() < 8 {
        return false;
    }
    if s.len() - 8 < i {
        return false;
    }
    let first = pair(s[i], s[i + 1]) | (pair(s[i + 2], s[i + 3]) << 16);
    let second = pair(s[i + 4], s[i + 5]) | (pair(s[i + 6], s[i + 7]) << 16);
    (first | (second << 32)) & 0x8080_8080_8080_8080 == 0
}

// The number that four bytes make together, the first of them lowest.
pub fn four(a: u8, b: u8, c: u8, d: u8) -> u64
    ensures { result ≡ four_of a b c d }
{
    pair(a, b) | (pair(c, d) << 16)
}

fn pair(a: u8, b: u8) -> u64
    ensures { result ≡ b * 2 ^ 8 + a }
{
    u64::from(a) | (u64::from(b) << 8)
}

// Passes over blocks of 64 ASCII bytes.
fn ascii_blocks(s: &[u8], start: usize) -> usize
    requires { start ≤ length s.now }
    ensures { SameEnd (run ascii) s.now start result }
{
    let mut i = start;
    while let Some(block) = s[i..].first_chunk::<64>() {
        if !is_ascii_block(block) {
            return i;
        }
        i += 64;
    }
    i
}

// Whether all bytes of a block are ASCII: one test of all their bits together, and no branch among
// them, so that the compiler, which knows how many there are at each call, takes sixteen at once.
#[inline(always)]
pub fn is_ascii_block(block: &[u8]) -> bool
    ensures { result ≡ (run ascii block.now == length block.now) }
{
    let mut bits: u8 = 0;
    for b in block {
        bits |= *b;
    }
    bits < 0x80
}
