// What the decoders speak of: the five encodings, the errors of decoding, the pieces of a body, the
// ends of a text, and the call's answer. These types are the rules' own as well as the code's; the
// functions here say an error's number, and make pieces (making.rt).
// Rules: specs/Encodings.antt, Pieces.antt, Escapes.antt, Bodies.antt, Marks.antt,
// Decoding.antt.
#![tactic(auto)]

ghost use Rattle.std.specs.Prelude.{◌≡◌};
ghost use Rattle.decoder_rules.specs.Encodings.{EditionGives};
ghost use Rattle.decoder_rules.specs.Pieces.{error_number};

mod making;

pub use crate::making::{bad_char, bad_copy, bad_drop, char_piece, copy_piece, drop_piece};
use text_refusals::Refusal;

// The edition of TOML that a basic string is written in: 1.0 or 1.1.
#[derive(Clone, Copy, Debug, PartialEq, Eq)]
pub enum Edition {
    Toml10,
    Toml11,
}

impl Edition {
    pub const TOML_10: usize = 10;

    pub const TOML_11: usize = 11;
}

// The edition that has this number; any other number is refused, and told.
impl TryFrom<usize> for Edition {
    type Error = Refusal;

    ghost try_from_gives = { EditionGives };

    #[tactic(auto, unfolding(crate::specs::Encodings::edition_of))]
    fn try_from(number: usize) -> Result<Self, Refusal> {
        match number {
            Edition::TOML_10 => Ok(Edition::Toml10),
            Edition::TOML_11 => Ok(Edition::Toml11),
            _ => Err(Refusal::NoEdition { number }),
        }
    }
}

// How a text is read: the Rust's `Encoding`, and the key. Only the basic kinds have escapes, and
// escapes are all that the editions differ in.
#[derive(Clone, Copy, Debug, PartialEq, Eq)]
pub enum Encoding {
    LiteralString,
    BasicString(Edition),
    MlLiteralString,
    MlBasicString(Edition),
    UnquotedKey,
}

// What is wrong in a text, and its number.
#[derive(Clone, Copy, Debug, PartialEq, Eq)]
pub enum DecodeError {
    // a quote mark of a literal string is missing
    LiteralMissingQuote = 1,
    // a byte that is not allowed in a literal string
    LiteralInvalid = 2,
    // the quote marks of an ml-literal string are missing, at one end
    MlLiteralMissingQuote = 3,
    // a CR without LF in an ml-literal or ml-basic string
    LoneCr = 4,
    // a byte that is not allowed in an ml-literal string
    MlLiteralInvalid = 5,
    // a quote mark of a basic string is missing
    BasicMissingQuote = 6,
    // bytes that are not allowed in a basic string
    BasicInvalid = 7,
    // after a backslash, none of the edition's letters
    MissingEscape = 8,
    // too few hex digits
    FewDigits = 9,
    // hex digits that make no Unicode scalar value
    NotScalar = 10,
    // the quote marks of an ml-basic string are missing, at one end
    MlBasicMissingQuote = 11,
    // bytes that are not allowed in an ml-basic string
    MlBasicInvalid = 12,
    // after a backslash and blanks, no newline
    MissingNewline = 13,
    // a key is empty
    EmptyKey = 14,
    // a byte that is not allowed in a key
    KeyInvalid = 15,
}

impl DecodeError {
    // The error's own number, as error records have it.
    pub fn number(self) -> usize
        ensures { result ≡ error_number self }
    {
        self as usize
    }
}

// An error, and from where to where in the text it goes.
#[derive(Clone, Copy, Debug, PartialEq, Eq)]
pub struct Wrong {
    pub error: DecodeError,
    pub start: usize,
    pub end: usize,
}

// What the letter after a backslash is for: it stands for a character, it asks for so many hex
// digits, or it is none of the edition's.
#[derive(Clone, Copy, Debug, PartialEq, Eq)]
pub enum Letter {
    Stands(u32),
    Asks(usize),
    Neither,
}

// What a piece gives: the bytes that it takes, a character, or nothing.
#[derive(Clone, Copy, Debug, PartialEq, Eq)]
pub enum Given {
    Copy,
    Char(u32),
    Nothing,
}

// A piece of a body: how many bytes it takes, what it gives, its error if any, and whether what
// follows is within a line-ending escape, which drops blanks.
#[derive(Clone, Copy, Debug, PartialEq, Eq)]
pub struct Piece {
    pub take: usize,
    pub given: Given,
    pub verdict: Option<Wrong>,
    pub dropping: bool,
}

// Which marks of a text are there, and where its body starts and ends.
#[derive(Clone, Copy, Debug, PartialEq, Eq)]
pub struct Ends {
    pub opened: bool,
    pub closed: bool,
    pub start: usize,
    pub end: usize,
}

// What `decode` answers where nothing was refused: how many bytes and error records were written.
#[derive(Clone, Copy, Debug, PartialEq, Eq)]
pub struct Decoded {
    pub bytes: usize,
    pub errors: usize,
}
