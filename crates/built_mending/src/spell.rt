// The body of a replacement: each byte of a value is spelt by itself. A function that stores answers the place after what it
// stored. Rule: specs/Mending.antt.
ghost use Rattle.std.specs.Prelude.{◌≡◌, ◌+◌, ◌<◌, ◌≤◌, length, Some, None};
ghost use Rattle.text_refusals.specs.Refusals.{limit};
ghost use Rattle.text_scalars.specs.Utf8.{Scalar, encode_scalar};
ghost use Rattle.decoder_rules.proofs.StoreLaws.{Stored};
ghost use Rattle.built_writing.specs.Writing.{hex_digit, spelling};
ghost use Rattle.built_mending.specs.Mending.{slashed, coded, respell, respelt};

use text_scalars::encode;

fn is_slashed(b: u8) -> bool
    ensures { result ≡ slashed b }
{
    b == b'"' || b == b'\\'
}

fn is_coded(b: u8) -> bool
    ensures { result ≡ coded b }
{
    b < 0x20 || b == 0x7F
}

// How many bytes a byte is written with.
fn width(b: u8) -> usize
    ensures { result ≡ length (respell b) }
{
    if is_slashed(b) {
        return 2;
    }
    if is_coded(b) {
        return 6;
    }
    1
}

// How many bytes some bytes are written with.
pub(crate) fn width_of(s: &[u8]) -> usize
    requires { length s.now ≤ limit }
    ensures { result ≡ length (respelt s.now) }
{
    let mut w = 0;
    for b in s {
        w += width(*b);
    }
    w
}

// How many bytes a scalar value is written with.
pub(crate) fn char_width(c: u32) -> usize
    requires { Scalar c }
    ensures { result ≡ length (respelt (encode_scalar c)) }
{
    let e = encode(c);
    width_of(&e.bytes[..e.len])
}

// A hex digit, in capitals.
fn hex_digit(d: u8) -> u8
    requires { d < 16 }
    ensures { result ≡ hex_digit d }
{
    if d < 10 { b'0' + d } else { b'A' + (d - 10) }
}

fn put_byte(b: u8, output: &mut [u8], o: usize) -> usize
    requires { o + length (respell b) ≤ length output.old }
    ensures { Stored output.old o (respell b) result output.new }
{
    if is_slashed(b) {
        return put_short(b, output, o);
    }
    if is_coded(b) {
        return put_coded(b, output, o);
    }
    output[o] = b;
    o + 1
}

// A backslash and the byte.
fn put_short(b: u8, output: &mut [u8], o: usize) -> usize
    requires { o + 2 ≤ length output.old }
    ensures { Stored output.old o (spelling (Some b) b) result output.new }
{
    output[o] = b'\\';
    output[o + 1] = b;
    o + 2
}

// A backslash, `u00` and the two digits of the byte's code.
fn put_coded(b: u8, output: &mut [u8], o: usize) -> usize
    requires { o + 6 ≤ length output.old }
    ensures { Stored output.old o (spelling None b) result output.new }
{
    output[o] = b'\\';
    output[o + 1] = b'u';
    output[o + 2] = b'0';
    output[o + 3] = b'0';
    output[o + 4] = hex_digit(b / 16);
    output[o + 5] = hex_digit(b % 16);
    o + 6
}

// Writes some bytes from place o0 on.
pub(crate) fn put_bytes(s: &[u8], output: &mut [u8], o0: usize) -> usize
    requires { o0 + length (respelt s.now) ≤ length output.old }
    ensures { Stored output.old o0 (respelt s.now) result output.new }
{
    let mut o = o0;
    for b in s {
        o = put_byte(*b, output, o);
    }
    o
}

// Writes a scalar value to place o.
pub(crate) fn put_char(c: u32, output: &mut [u8], o: usize) -> usize
    requires { Scalar c × (o + length (respelt (encode_scalar c)) ≤ length output.old) }
    ensures { Stored output.old o (respelt (encode_scalar c)) result output.new }
{
    let e = encode(c);
    put_bytes(&e.bytes[..e.len], output, o)
}
