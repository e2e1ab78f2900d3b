// Scalar values: which numbers they are, and their encoding in UTF-8. Rules: specs/Utf8.antt, Encode.antt.
#![tactic(auto)]

ghost use Rattle.std.specs.Prelude.{◌≡◌, ◌+◌, ◌%◌, ◌<◌};
ghost use Rattle.text_scalars.specs.Utf8.{encode_scalar};
ghost use Rattle.text_scalars.specs.Utf8Read.{is_scalar};
ghost use Rattle.text_scalars.specs.Encode.{padded, encoded_of};

// The bytes of one character: the first `len` of `bytes`, the rest zero. They are made here, in fixed memory: no text could be lent.
#[derive(Clone, Copy, Debug, PartialEq, Eq)]
pub struct Encoded {
    pub len: usize,
    pub bytes: [u8; 4],
}

// The bytes of a scalar value. A number that is no scalar value has no encoding: no bytes.
pub fn encode(c: u32) -> Encoded
    ensures { result ≡ encoded_of c }
{
    if is_scalar(c) {
        return encode_scalar(c);
    }
    Encoded {
        len: 0,
        bytes: [0, 0, 0, 0],
    }
}

// By the four UTF-8 lengths and their bit fields.
fn encode_scalar(c: u32) -> Encoded
    requires { c < 0x110000 }
    ensures { result ≡ padded (encode_scalar c) }
{
    if c < 0x80 {
        return Encoded {
            len: 1,
            bytes: [c as u8, 0, 0, 0],
        };
    }
    if c < 0x800 {
        return Encoded {
            len: 2,
            bytes: [((c >> 6) | 0xC0) as u8, tail(c), 0, 0],
        };
    }
    if c < 0x10000 {
        return Encoded {
            len: 3,
            bytes: [((c >> 12) | 0xE0) as u8, tail(c >> 6), tail(c), 0],
        };
    }
    Encoded {
        len: 4,
        bytes: [
            ((c >> 18) | 0xF0) as u8,
            tail(c >> 12),
            tail(c >> 6),
            tail(c),
        ],
    }
}

// A continuation byte: the mark 10 and the six low bits.
fn tail(c: u32) -> u8
    ensures { result ≡ 0x80 + c % 64 }
{
    ((c & 0x3F) | 0x80) as u8
}

// Is `c` a scalar value: any code point but a surrogate?
pub fn is_scalar(c: u32) -> bool
    ensures { result ≡ is_scalar c }
{
    matches!(c, 0..=0xD7FF | 0xE000..=0x10FFFF)
}
