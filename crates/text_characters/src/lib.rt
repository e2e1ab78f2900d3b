// Characters of two bytes and more: what a first byte asks for, and a run of whole characters passed over at once.
// Rules: Utf8.antt of crate `text_scalars`, specs/Lead.antt.
#![tactic(auto)]

ghost use Rattle.std.specs.Prelude.{◌≡◌, true, false, ℕ, ◌+◌, ◌<◌, ◌≤◌, length};
ghost use Rattle.text_scalars.specs.Utf8Read.{Along};
ghost use Rattle.text_ascii.specs.Words.{four_at};
ghost use Rattle.text_characters.specs.Lead.{lead_of, ones_of, Among, Asked, Character, CharacterAt, WideAt};

use text_ascii::{four, is_ascii_word};

// Passes over whole characters while four bytes are left to be read, so that no byte past the end is asked for. Stops
// before eight ASCII bytes in a row, over which `ascii_run` is quicker. The count of leading ones is a character's length; it
// is compared with constants only, so that the compiler compares the byte itself instead.
// By an index, here and in `fours_run`: over slices of what is left the check of Greek takes a fifth more instructions.
pub fn chars_run(s: &[u8], start: usize) -> usize
    ensures { start ≤ length s.now → Along s.now start result }
{
    if s.len() < start {
        return start;
    }
    let mut i = start;
    if s.len() < 4 {
        return i;
    }
    let last = s.len() - 4;
    while i <= last {
        let a = s[i];
        let ones = u8::leading_zeros(!a) as usize;
        if a < 0x80 {
            if is_ascii_word(s, i) {
                return i;
            }
            i += 1;
        } else if ones < 3 {
            if is_two_twice(s, i) {
                i += 4;
            } else if is_two(a, s[i + 1]) {
                i += 2;
            } else {
                return i;
            }
        } else if ones == 3 {
            if !is_three(a, s[i + 1], s[i + 2]) {
                return i;
            }
            i += 3;
        } else {
            if !is_four(a, s[i + 1], s[i + 2], s[i + 3]) {
                return i;
            }
            i = fours_run(s, i + 4, last);
        }
    }
    i
}

// Passes over characters of four bytes that begin at `last` at the latest: they come in rows, as emoji do.
fn fours_run(s: &[u8], start: usize, last: usize) -> usize
    requires { (start ≤ length s.now) × (last + 4 ≤ length s.now) }
    ensures { Along s.now start result }
{
    let mut i = start;
    while i <= last {
        if !is_four_word(s, i) {
            return i;
        }
        i += 4;
    }
    i
}

// Whether two characters of two bytes stand at `i`: the marks of all four bytes are tested at once, and then neither
// character is overlong where a bit is on that C0 and C1 do not have. Whether a second one can begin there is tested first,
// for texts in which such characters stand alone.
fn is_two_twice(s: &[u8], i: usize) -> bool
    requires { i + 4 ≤ length s.now }
    ensures { result ≡ true → CharacterAt s.now i 2 × CharacterAt s.now (i + 2) 2 }
{
    if s[i + 2] < 0xC0 {
        return false;
    }
    let word = word_at(s, i);
    if word & 0xC0E0_C0E0 != 0x80C0_80C0 {
        return false;
    }
    if word & 0x1E == 0 {
        return false;
    }
    word & 0x1E_0000 != 0
}

// The number that four bytes from `i` on make together, which the compiler reads at once.
fn word_at(s: &[u8], i: usize) -> u64
    requires { i + 4 ≤ length s.now }
    ensures { result ≡ four_at s.now i }
{
    four(s[i], s[i + 1], s[i + 2], s[i + 3])
}

// Whether a character of four bytes stands at `i` that begins with F0 to F3: the marks of all four bytes are tested at once,
// and then it is overlong only where the first is F0 and the second below 90, which have all bits of one mask off.
fn is_four_word(s: &[u8], i: usize) -> bool
    requires { i + 4 ≤ length s.now }
    ensures { result ≡ true → CharacterAt s.now i 4 }
{
    let word = word_at(s, i);
    if word & 0xC0C0_C0FC != 0x8080_80F0 {
        return false;
    }
    word & 0x3003 != 0
}

fn is_two(a: u8, b: u8) -> bool
    requires { ones_of a < 3 }
    ensures { result ≡ true → (c : ℕ) (d : ℕ) → Character a b c d 2 }
{
    0xC2 <= a && is_among(b, 0x80, 0xBF)
}

fn is_three(a: u8, b: u8, c: u8) -> bool
    requires { ones_of a ≡ 3 }
    ensures { result ≡ true → (d : ℕ) → Character a b c d 3 }
{
    is_second_of_three(a, b) && is_among(c, 0x80, 0xBF)
}

fn is_four(a: u8, b: u8, c: u8, d: u8) -> bool
    requires { 3 < ones_of a }
    ensures { result ≡ true → Character a b c d 4 }
{
    is_second_of_four(a, b) && is_among(c, 0x80, 0xBF) && is_among(d, 0x80, 0xBF)
}

fn is_second_of_three(a: u8, b: u8) -> bool
    requires { ones_of a ≡ 3 }
    ensures { result ≡ true → Asked a 3 b }
{
    if a == 0xE0 {
        return is_among(b, 0xA0, 0xBF);
    }
    if a == 0xED {
        return is_among(b, 0x80, 0x9F);
    }
    is_among(b, 0x80, 0xBF)
}

fn is_second_of_four(a: u8, b: u8) -> bool
    requires { 3 < ones_of a }
    ensures { result ≡ true → Asked a 4 b }
{
    if a == 0xF0 {
        return is_among(b, 0x90, 0xBF);
    }
    if a < 0xF4 {
        return is_among(b, 0x80, 0xBF);
    }
    if a == 0xF4 {
        return is_among(b, 0x80, 0x8F);
    }
    false
}

// The length of the character of two to four bytes that stands at `at`, if one does. It asks as `chars_run` does, for
// a caller that goes over ASCII itself.
pub fn wide_at(s: &[u8], at: usize) -> Option<usize>
    ensures { WideAt s.now at result }
{
    if s.len() <= at {
        return None;
    }
    let left = s.len() - at;
    if left < 2 {
        return None;
    }
    let a = s[at];
    let ones = u8::leading_zeros(!a) as usize;
    if ones < 3 {
        return is_two(a, s[at + 1]).then_some(2);
    }
    if left < 3 {
        return None;
    }
    if ones == 3 {
        return is_three(a, s[at + 1], s[at + 2]).then_some(3);
    }
    if left < 4 {
        return None;
    }
    is_four(a, s[at + 1], s[at + 2], s[at + 3]).then_some(4)
}

pub fn is_among(b: u8, low: u8, high: u8) -> bool
    ensures { (result ≡ true → Among low high b) × (result ≡ false → Among low high b → ⊥) }
{
    low <= b && b <= high
}

// What a first byte says of its character: the length, 0 where none begins so, and the range of
// the second byte. No Option: `lead_of` promises the table's rows, of which some have 0, and `Begun` is about such rows too.
#[derive(Clone, Copy, Debug, PartialEq, Eq)]
pub struct Lead(pub usize, pub u8, pub u8);

// Beyond ASCII the length is the count of leading ones: the leading zeros of the complement. 80 to BF
// have one, and F8 to FF more than four: no character begins with these. What table 3-7 of the Unicode standard
// leaves out is taken out then: overlong forms, surrogates and values over 10FFFF.
#[tactic(auto, using(crate::proofs::OnesLaws::ones_none, crate::proofs::OnesLaws::ones_few, crate::proofs::OnesLaws::ones_many, crate::proofs::OnesLaws::ones_rest), unfolding(crate::specs::Lead::lead_of))]
pub fn lead_of(a: u8) -> Lead
    ensures { result ≡ lead_of a }
{
    let ones = u8::leading_zeros(!a) as usize;
    if ones == 0 {
        return Lead(1, 0, 0);
    }
    if ones < 2 {
        return Lead(0, 0, 0);
    }
    if 4 < ones {
        return Lead(0, 0, 0);
    }
    match a {
        0xC0..=0xC1 | 0xF5..=0xF7 => Lead(0, 0, 0),
        0xE0 => Lead(ones, 0xA0, 0xBF),
        0xED => Lead(ones, 0x80, 0x9F),
        0xF0 => Lead(ones, 0x90, 0xBF),
        0xF4 => Lead(ones, 0x80, 0x8F),
        _ => Lead(ones, 0x80, 0xBF),
    }
}
