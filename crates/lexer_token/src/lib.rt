// Tokens: the sixteen kinds with their numbers, descriptions and encodings, spans, and the one
// place that makes a token and the one that reads it into a record of four numbers.
// Rules: specs/KindNumbers.antt, Descriptions.antt, Encodings.antt, Records.antt.
#![tactic(auto)]

ghost use Rattle.std.specs.Prelude.{◌≡◌, ◌≤◌, length, IfOk, MatchResult};
ghost use Rattle.text_refusals.specs.Told.{told_number, told_value};
ghost use Rattle.lexer_token.specs.KindNumbers.{kind_number};
ghost use Rattle.lexer_token.specs.Descriptions.{kind_text, description_of};
ghost use Rattle.lexer_token.specs.Told.{KindGives, kind_refusal, kind_returned};
ghost use Rattle.lexer_token.specs.Encodings.{kind_encoding, encoding_of};
ghost use Rattle.lexer_token.specs.Records.{span_of, token_of, record_of};

use text_refusals::Refusal;

// A token as four numbers: kind, start, end, line.
pub type Record = [usize; 4];

// A piece of the document that was lexed, not yet judged, and the line of its first byte.
#[derive(Clone, Copy, Debug, PartialEq, Eq)]
pub struct Token {
    pub kind: TokenKind,
    pub span: Span,
    pub line: usize,
}

impl Token {
    // Every token is made here.
    pub fn new(kind: TokenKind, span: Span, line: usize) -> Self
        ensures { result ≡ token_of kind span.start span.end line }
    {
        Token { kind, span, line }
    }

    // Every token is read into a record here.
    pub fn as_record(self) -> Record
        ensures { result ≡ record_of self }
    {
        let kind = self.kind;
        [kind.number(), self.span.start, self.span.end, self.line]
    }
}

// The bytes from `start` up to `end`, which is not included.
#[derive(Clone, Copy, Debug, PartialEq, Eq)]
pub struct Span {
    pub start: usize,
    pub end: usize,
}

impl Span {
    // The bytes of a delimiter: one quote mark, three of them, and the byte order mark.
    pub const MARK: usize = 1;

    pub const ML_MARK: usize = 3;

    pub const BOM: usize = 3;

    pub fn new(start: usize, end: usize) -> Self
        ensures { result ≡ span_of start end }
    {
        Span { start, end }
    }
}

// The sixteen kinds, each with its number: a byte with which it begins; 1 to 4 for the multi-line strings, the atom and the end.
#[derive(Clone, Copy, Debug, PartialEq, Eq)]
pub enum TokenKind {
    // within a dotted key or a float
    Dot = 46,
    // between a key and its value
    Equals = 61,
    // between values
    Comma = 44,
    // before an array or a table's name
    LeftSquareBracket = 91,
    // after an array or a table's name
    RightSquareBracket = 93,
    // before an inline table
    LeftCurlyBracket = 123,
    // after an inline table
    RightCurlyBracket = 125,
    Whitespace = 32,
    Comment = 35,
    Newline = 10,
    LiteralString = 39,
    BasicString = 34,
    MlLiteralString = 1,
    MlBasicString = 2,
    // all else
    Atom = 3,
    Eof = 4,
}

// The kind that has a number.
impl TryFrom<usize> for TokenKind {
    type Error = Refusal;

    ghost try_from_gives = { KindGives };

    #[tactic(auto, unfolding(crate::specs::KindNumbers::kind_of_number))]
    fn try_from(number: usize) -> Result<Self, Refusal> {
        match number {
            TokenKind::DOT => Ok(TokenKind::Dot),
            TokenKind::EQUALS => Ok(TokenKind::Equals),
            TokenKind::COMMA => Ok(TokenKind::Comma),
            TokenKind::LEFT_SQUARE_BRACKET => Ok(TokenKind::LeftSquareBracket),
            TokenKind::RIGHT_SQUARE_BRACKET => Ok(TokenKind::RightSquareBracket),
            TokenKind::LEFT_CURLY_BRACKET => Ok(TokenKind::LeftCurlyBracket),
            TokenKind::RIGHT_CURLY_BRACKET => Ok(TokenKind::RightCurlyBracket),
            TokenKind::WHITESPACE => Ok(TokenKind::Whitespace),
            TokenKind::COMMENT => Ok(TokenKind::Comment),
            TokenKind::NEWLINE => Ok(TokenKind::Newline),
            TokenKind::LITERAL_STRING => Ok(TokenKind::LiteralString),
            TokenKind::BASIC_STRING => Ok(TokenKind::BasicString),
            TokenKind::ML_LITERAL_STRING => Ok(TokenKind::MlLiteralString),
            TokenKind::ML_BASIC_STRING => Ok(TokenKind::MlBasicString),
            TokenKind::ATOM => Ok(TokenKind::Atom),
            TokenKind::EOF => Ok(TokenKind::Eof),
            _ => Err(Refusal::NoKind { number }),
        }
    }
}

impl TokenKind {
    pub const DOT: usize = 46;

    pub const EQUALS: usize = 61;

    pub const COMMA: usize = 44;

    pub const LEFT_SQUARE_BRACKET: usize = 91;

    pub const RIGHT_SQUARE_BRACKET: usize = 93;

    pub const LEFT_CURLY_BRACKET: usize = 123;

    pub const RIGHT_CURLY_BRACKET: usize = 125;

    pub const WHITESPACE: usize = 32;

    pub const COMMENT: usize = 35;

    pub const NEWLINE: usize = 10;

    pub const LITERAL_STRING: usize = 39;

    pub const BASIC_STRING: usize = 34;

    pub const ML_LITERAL_STRING: usize = 1;

    pub const ML_BASIC_STRING: usize = 2;

    pub const ATOM: usize = 3;

    pub const EOF: usize = 4;

    // The number of a kind.
    pub fn number(self) -> usize
        ensures { result ≡ kind_number self }
    {
        self as usize
    }

    // The words for the kind that has a number.
    #[tactic(auto, unfolding(crate::specs::Descriptions::description_of))]
    pub fn description(number: usize) -> Result<&'static [u8], Refusal>
        ensures answer { MatchResult result (λ text. description_of number ≡ Ok text.now) (λ r. description_of number ≡ Err r) }
        ensures number { told_number result ≡ kind_refusal number }
        ensures value { told_value result ≡ kind_returned number }
        ensures short { IfOk result (λ text. length text.now ≤ 25) }
    {
        Ok(TokenKind::try_from(number)?.text())
    }

    #[tactic(auto, using(crate::proofs::KindLaws::text_short))]
    fn text(self) -> &'static [u8]
        ensures words { result.now ≡ kind_text self }
        ensures short { length result.now ≤ 25 }
    {
        match self {
            TokenKind::Dot => b"`.`",
            TokenKind::Equals => b"`=`",
            TokenKind::Comma => b"`,`",
            TokenKind::LeftSquareBracket => b"`[`",
            TokenKind::RightSquareBracket => b"`]`",
            TokenKind::LeftCurlyBracket => b"`{`",
            TokenKind::RightCurlyBracket => b"`}`",
            TokenKind::Whitespace => b"whitespace",
            TokenKind::Comment => b"comment",
            TokenKind::Newline => b"newline",
            TokenKind::LiteralString => b"literal string",
            TokenKind::BasicString => b"basic string",
            TokenKind::MlLiteralString => b"multi-line literal string",
            TokenKind::MlBasicString => b"multi-line basic string",
            TokenKind::Atom => b"token",
            TokenKind::Eof => b"end-of-input",
        }
    }

    // The number by which a decoder takes the kind that has a number: 0 for a kind that is no string.
    #[tactic(auto, unfolding(crate::specs::Encodings::encoding_of))]
    pub fn encoding(number: usize) -> Result<usize, Refusal>
        ensures answer { result ≡ encoding_of number }
        ensures number { told_number result ≡ kind_refusal number }
        ensures value { told_value result ≡ kind_returned number }
    {
        Ok(TokenKind::try_from(number)?.encoded())
    }

    fn encoded(self) -> usize
        ensures { result ≡ kind_encoding self }
    {
        match self {
            TokenKind::LiteralString
            | TokenKind::BasicString
            | TokenKind::MlLiteralString
            | TokenKind::MlBasicString => self.number(),
            _ => 0,
        }
    }
}
