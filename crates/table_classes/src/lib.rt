// Byte classes from a table: the class of each byte, looked up, answers which of the byte sets have it. A class is a set of bytes
// that no rule tells apart; each byte set of crate `text_classes` is a set of classes, and each single byte that a rule names is a class.
// Rules: specs/Classed.antt.
#![tactic(auto)]

pub mod class;

ghost use Rattle.std.specs.Prelude.{◌≡◌, ◌+◌, ◌<◌, eqb, drop};
ghost use Rattle.text_classes.specs.Runs.{run, stands, triple};
ghost use Rattle.table_classes.specs.Classed.{set_of, byte_of, class_of};
ghost use Rattle.table_classes.specs.Masks.{mask_of, has_class, alone_of};

use text_classes::{ByteSet, run_of};

// The byte sets.
#[derive(Clone, Copy)]
pub enum Set {
    // those that bear a name in crate `text_classes`
    Wschar,
    TokenStart,
    NonAscii,
    LiteralChar,
    MllChar,
    BasicUnescaped,
    MlbUnescaped,
    Digit,
    Hexdig,
    UnquotedChar,
    Continuation,
    // what goes on with an atom, with a comment, and with a string of each kind up to a byte that may end it
    InAtom,
    InComment,
    InLiteral,
    InBasic,
    InMlLiteral,
    InMlBasic,
    // what stands for itself in a multi-line body, what errors 7 and 12 are about, and what a line-ending escape drops
    MllPlain,
    MlbPlain,
    BasicInvalid,
    MlbInvalid,
    Skipped,
}

// The single bytes that a rule names, each with its class, which has that byte alone.
#[derive(Clone, Copy)]
pub enum Sign {
    Tab = 7,
    Lf = 8,
    Cr = 9,
    Space = 10,
    QuotationMark = 11,
    NumberSign = 12,
    Apostrophe = 13,
    Comma = 14,
    Dot = 15,
    Equals = 16,
    BigU = 17,
    LeftSquare = 18,
    Backslash = 19,
    RightSquare = 20,
    SmallB = 21,
    SmallE = 22,
    SmallF = 23,
    SmallN = 24,
    SmallR = 25,
    SmallT = 26,
    SmallU = 27,
    SmallX = 28,
    LeftCurly = 29,
    RightCurly = 30,
}

// The class of each byte: row b / 16, column b % 16.
static CLASSES: [[u8; 16]; 16] = [
    [0, 0, 0, 0, 0, 0, 0, 0, 0, 7, 8, 0, 0, 9, 0, 0],
    [0, 0, 0, 0, 0, 0, 0, 0, 0, 0, 0, 0, 0, 0, 0, 0],
    [10, 1, 11, 12, 1, 1, 1, 13, 1, 1, 1, 1, 14, 2, 15, 1],
    [3, 3, 3, 3, 3, 3, 3, 3, 3, 3, 1, 1, 1, 16, 1, 1],
    [1, 4, 4, 4, 4, 4, 4, 2, 2, 2, 2, 2, 2, 2, 2, 2],
    [2, 2, 2, 2, 2, 17, 2, 2, 2, 2, 2, 18, 19, 20, 1, 2],
    [1, 4, 21, 4, 4, 22, 23, 2, 2, 2, 2, 2, 2, 2, 24, 2],
    [2, 2, 25, 2, 26, 27, 2, 2, 28, 2, 2, 29, 1, 30, 1, 0],
    [5, 5, 5, 5, 5, 5, 5, 5, 5, 5, 5, 5, 5, 5, 5, 5],
    [5, 5, 5, 5, 5, 5, 5, 5, 5, 5, 5, 5, 5, 5, 5, 5],
    [5, 5, 5, 5, 5, 5, 5, 5, 5, 5, 5, 5, 5, 5, 5, 5],
    [5, 5, 5, 5, 5, 5, 5, 5, 5, 5, 5, 5, 5, 5, 5, 5],
    [6, 6, 6, 6, 6, 6, 6, 6, 6, 6, 6, 6, 6, 6, 6, 6],
    [6, 6, 6, 6, 6, 6, 6, 6, 6, 6, 6, 6, 6, 6, 6, 6],
    [6, 6, 6, 6, 6, 6, 6, 6, 6, 6, 6, 6, 6, 6, 6, 6],
    [6, 6, 6, 6, 6, 6, 6, 6, 6, 6, 6, 6, 6, 6, 6, 6],
];

// The class of a byte.
pub fn class_of(b: u8) -> u8
    ensures { result ≡ class_of b }
{
    CLASSES[(b / 16) as usize][(b % 16) as usize]
}

// Is the byte in the set? One lookup and one shift.
pub fn is_in(set: Set, b: u8) -> bool
    ensures { result ≡ set_of set b }
{
    has_class(mask_of(set), class_of(b))
}

// Is it that byte? One lookup.
pub fn is_sign(sign: Sign, b: u8) -> bool
    ensures { result ≡ eqb b (byte_of sign) }
{
    class_of(b) == alone_of(sign)
}

// Does it stand at place i?
pub fn is_at(s: &[u8], i: usize, sign: Sign) -> bool
    ensures { result ≡ stands (byte_of sign) (drop i s.now) }
{
    i < s.len() && is_sign(sign, s[i])
}

// Do three of it stand from place i on?
// The tests of `text_classes` asked of the table: a trait of a byte and a sign is longer than these two functions.
pub fn is_triple(s: &[u8], i: usize, sign: Sign) -> bool
    ensures { result ≡ triple (byte_of sign) (drop i s.now) }
{
    is_at(s, i, sign) && (is_at(s, i + 1, sign) && is_at(s, i + 2, sign))
}

impl ByteSet for Set {
    ghost holds = { set_of };

    fn holds(self, b: u8) -> bool {
        is_in(self, b)
    }
}

// The place of the first byte from `start` on that is not in the set, or the end; beyond the end, `start` itself.
pub fn class_run(set: Set, s: &[u8], start: usize) -> usize
    ensures { result ≡ start + run (set_of set) (drop start s.now) }
{
    run_of(set, s, start)
}

// Does the mask have the class?
fn has_class(mask: u32, class: u8) -> bool
    requires { class < 32 }
    ensures { result ≡ has_class mask class }
{
    (mask >> (class as u32)) & 1 == 1
}

// The classes of a set: bit k is on for class k.
fn mask_of(set: Set) -> u32
    ensures { result ≡ mask_of set }
{
    match set {
        Set::Wschar => 0x0000_0480,
        Set::TokenStart => 0x6015_D780,
        Set::NonAscii => 0x0000_0060,
        Set::LiteralChar => 0x7FFF_DCFE,
        Set::MllChar => 0x7FFF_DCFE,
        Set::BasicUnescaped => 0x7FF7_F4FE,
        Set::MlbUnescaped => 0x7FF7_F4FE,
        Set::Digit => 0x0000_0008,
        Set::Hexdig => 0x00E0_0018,
        Set::UnquotedChar => 0x1FE2_001C,
        Set::Continuation => 0x0000_0020,
        Set::InAtom => 0x1FEA_287F,
        Set::InComment => 0x7FFF_FCFF,
        Set::InLiteral => 0x7FFF_DEFF,
        Set::InBasic => 0x7FF7_F6FF,
        Set::InMlLiteral => 0x7FFF_DFFF,
        Set::InMlBasic => 0x7FF7_F7FF,
        Set::MllPlain => 0x7FFF_FDFE,
        Set::MlbPlain => 0x7FF7_FDFE,
        Set::BasicInvalid => 0x0000_0B01,
        Set::MlbInvalid => 0x0000_0001,
        Set::Skipped => 0x0000_0780,
    }
}

// The class that has that byte alone.
fn alone_of(sign: Sign) -> u8
    ensures { result ≡ alone_of sign }
{
    sign as u8
}
