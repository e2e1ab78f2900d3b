// The pieces of a body: the first one by the five decoders of string.rt, and from one to the next in body.rt; both over any engine
// that looks at bytes (engine.rt). Rules: Bodies.antt and Escapes.antt of crate `decoder_rules`.
#![tactic(auto)]

ghost use Rattle.std.specs.Prelude.{◌≡◌};
ghost use Rattle.decoder_rules.specs.Bodies.{piece_of};

mod body;
mod engine;
mod ranges;
mod string;

pub use crate::body::Body;
pub use crate::engine::{Bytes, Engine};
pub use crate::ranges::Ranges;
pub use crate::string::{Escape, escape_at, strip_start_newline};
use crate::string::{
    Left, decode_basic_string, decode_literal_string, decode_ml_basic_string,
    decode_ml_literal_string, decode_unquoted_key,
};
use decoder_rules::{Encoding, Piece};

// The first piece of a body; `dropping` says whether it is within a line-ending escape.
fn piece_at<E: Bytes>(e: Encoding, dropping: bool, left: Left<'_>) -> Piece
    ensures { result ≡ piece_of e dropping left.entry.at left.entry.s.now }
{
    match e {
        Encoding::LiteralString => decode_literal_string::<E>(left),
        Encoding::MlLiteralString => decode_ml_literal_string::<E>(left),
        Encoding::BasicString(v) => decode_basic_string::<E>(v, left),
        Encoding::MlBasicString(v) => decode_ml_basic_string::<E>(v, dropping, left),
        Encoding::UnquotedKey => decode_unquoted_key::<E>(left),
    }
}
