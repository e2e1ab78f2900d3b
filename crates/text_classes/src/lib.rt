// The bytes and the byte sets that toml_parser, the Rust library that this project follows, gives a name, each under its name
// there; the bytes inside a character; and whether a byte, or three of it, stand at a place. Rules: specs/Classes.antt, a
// definition for each set, and specs/Runs.antt.
#![tactic(auto)]

ghost use Rattle.std.specs.Prelude.{◌≡◌, drop};
ghost use Rattle.text_classes.specs.Classes.{wschar, token_start, non_ascii, literal_char, mll_char, basic_unescaped, mlb_unescaped, digit, hexdig, unquoted_char, continuation};
ghost use Rattle.text_classes.specs.Runs.{stands, triple};

mod sets;

pub use sets::{ByteSet, Continuation, Not, TokenStart, UnquotedChar, Wschar, count_of, run_of};

// comment-start-symbol = %x23 ; #
pub const COMMENT_START_SYMBOL: u8 = b'#';

// apostrophe = %x27 ; ' apostrophe
pub const APOSTROPHE: u8 = b'\'';

// quotation-mark = %x22 ; "
pub const QUOTATION_MARK: u8 = b'"';

// escape = %x5C ; \
pub const ESCAPE: u8 = b'\\';

// WSCHAR
#[tactic(auto, unfolding(crate::specs::Classes::wschar))]
pub fn is_wschar(b: u8) -> bool
    ensures { result ≡ wschar b }
{
    matches!(b, b' ' | b'\t')
}

// TOKEN_START. A loop over a document asks this of every byte of an atom, so the bits of two numbers
// answer it: a shift is one test, where a match is a jump. The first number has bit `b & 63` on for
// each byte `b` of the set, and most bytes of an atom are told by it alone. The second has bit `b` on
// for each byte `b` of the set below 64.
#[tactic(auto, unfolding(crate::specs::Classes::token_start))]
pub fn is_token_start(b: u8) -> bool
    ensures { result ≡ token_start b }
{
    if (0x2800_508d_2800_2600u64 >> (u64::from(b) & 63)) & 1 == 0 {
        return false;
    }
    if b < 64 {
        return (0x2000_5009_0000_2600u64 >> u64::from(b)) & 1 == 1;
    }
    matches!(b, b'[' | b']' | b'{' | b'}')
}

// NON_ASCII
pub fn is_non_ascii(b: u8) -> bool
    ensures { result ≡ non_ascii b }
{
    0x80 <= b
}

// LITERAL_CHAR
#[tactic(auto, unfolding(crate::specs::Classes::literal_char))]
pub fn is_literal_char(b: u8) -> bool
    ensures { result ≡ literal_char b }
{
    matches!(b, 0x09 | 0x20..=0x26 | 0x28..=0x7E | 0x80..=0xFF)
}

// MLL_CHAR
#[tactic(auto, unfolding(crate::specs::Classes::literal_char, crate::specs::Classes::mll_char))]
pub fn is_mll_char(b: u8) -> bool
    ensures { result ≡ mll_char b }
{
    is_literal_char(b)
}

// BASIC_UNESCAPED
#[tactic(auto, unfolding(crate::specs::Classes::basic_unescaped))]
pub fn is_basic_unescaped(b: u8) -> bool
    ensures { result ≡ basic_unescaped b }
{
    matches!(b, b' ' | b'\t' | 0x21 | 0x23..=0x5B | 0x5D..=0x7E | 0x80..=0xFF)
}

// MLB_UNESCAPED
#[tactic(auto, unfolding(crate::specs::Classes::basic_unescaped, crate::specs::Classes::mlb_unescaped))]
pub fn is_mlb_unescaped(b: u8) -> bool
    ensures { result ≡ mlb_unescaped b }
{
    is_basic_unescaped(b)
}

// HEXDIG
#[tactic(auto, unfolding(crate::specs::Classes::hexdig))]
pub fn is_hexdig(b: u8) -> bool
    ensures { result ≡ hexdig b }
{
    matches!(b, b'0'..=b'9' | b'A'..=b'F' | b'a'..=b'f')
}

// DIGIT
#[tactic(auto, unfolding(crate::specs::Classes::digit))]
pub fn is_digit(b: u8) -> bool
    ensures { result ≡ digit b }
{
    matches!(b, b'0'..=b'9')
}

// UNQUOTED_CHAR
#[tactic(auto, unfolding(crate::specs::Classes::unquoted_char))]
pub fn is_unquoted_char(b: u8) -> bool
    ensures { result ≡ unquoted_char b }
{
    matches!(b, b'A'..=b'Z' | b'a'..=b'z' | b'0'..=b'9' | b'-' | b'_')
}

// A byte inside a character, 80 to BF: no span starts or ends there.
#[tactic(auto, unfolding(crate::specs::Classes::continuation))]
pub fn is_continuation(b: u8) -> bool
    ensures { result ≡ continuation b }
{
    matches!(b, 0x80..=0xBF)
}

// Does the byte q stand at place i?
pub fn is_at(s: &[u8], i: usize, q: u8) -> bool
    ensures { result ≡ stands q (drop i s.now) }
{
    s.get(i) == Some(&q)
}

// Do three marks q stand from place i on? Of apostrophes that is ml-literal-string-delim, of quotation marks
// ml-basic-string-delim.
pub fn is_triple(s: &[u8], i: usize, q: u8) -> bool
    ensures { result ≡ triple q (drop i s.now) }
{
    is_at(s, i, q) && (is_at(s, i + 1, q) && is_at(s, i + 2, q))
}
