// Whether a token's text is ASCII: most are, and short. Short texts are asked for by two parts that overlap, longer ones in parts
// of sixteen bytes, of which the last reaches back.
ghost use Rattle.std.specs.Prelude.{◌≡◌, true, ◌+◌, ◌<◌, ◌≤◌, length};
ghost use Rattle.built_broken.specs.Walk.{AsciiIn};

use text_ascii::is_ascii_block;

pub(crate) fn is_ascii(s: &[u8]) -> bool
    ensures { result ≡ true → AsciiIn s.now 0 (length s.now) }
{
    let n = s.len();
    if n < 4 {
        return is_ascii_few(s);
    }
    if n < 8 {
        return is_ascii_ends(s, 4);
    }
    if n < 16 {
        return is_ascii_ends(s, 8);
    }
    let last = n - 16;
    let mut i = 0;
    // By hand: `chunks` ends in a part of fewer bytes, which is no block that the compiler takes at once.
    while i < last {
        if !is_ascii_block(&s[i..i + 16]) {
            return false;
        }
        i += 16;
    }
    is_ascii_block(&s[last..last + 16])
}

// Up to three bytes: the first, the middle one and the last are all.
fn is_ascii_few(s: &[u8]) -> bool
    requires { length s.now < 4 }
    ensures { result ≡ true → AsciiIn s.now 0 (length s.now) }
{
    let n = s.len();
    if n == 0 {
        return true;
    }
    (s[0] | s[n / 2]) | s[n - 1] < 0x80
}

// The first n bytes and the last n.
fn is_ascii_ends(s: &[u8], n: usize) -> bool
    requires { (n ≤ length s.now) × (length s.now ≤ n + n) }
    ensures { result ≡ true → AsciiIn s.now 0 (length s.now) }
{
    let last = s.len() - n;
    is_ascii_block(&s[..n]) && is_ascii_block(&s[last..last + n])
}
