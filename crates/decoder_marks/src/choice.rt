// Which encoding a text is decoded by: that of a kind in an edition. Rule: Encodings.antt of crate `decoder_rules`.
ghost use Rattle.std.specs.Prelude.{◌≡◌};
ghost use Rattle.decoder_rules.specs.Encodings.{choice_in, choice_by};

use decoder_rules::{Edition, Encoding};
use lexer_token::TokenKind;
use text_refusals::Refusal;

// Which encoding the two numbers ask for. A kind is asked for before an edition.
#[tactic(auto, unfolding(decoder_rules::specs::Encodings::choice_by, decoder_rules::specs::Encodings::edition_of))]
pub fn choice_by(edition: usize, kind: usize) -> Result<Encoding, Refusal>
    ensures { result ≡ choice_by edition kind }
{
    match Edition::try_from(edition) {
        Ok(v) => choice_in(v, kind),
        Err(r) => choice_in(Edition::Toml10, kind).and(Err(r)),
    }
}

// Which encoding the kind's number asks for in an edition.
#[tactic(auto, unfolding(decoder_rules::specs::Encodings::choice_in))]
fn choice_in(v: Edition, kind: usize) -> Result<Encoding, Refusal>
    ensures { result ≡ choice_in v kind }
{
    match kind {
        TokenKind::LITERAL_STRING => Ok(Encoding::LiteralString),
        TokenKind::BASIC_STRING => Ok(Encoding::BasicString(v)),
        TokenKind::ML_LITERAL_STRING => Ok(Encoding::MlLiteralString),
        TokenKind::ML_BASIC_STRING => Ok(Encoding::MlBasicString(v)),
        TokenKind::ATOM => Ok(Encoding::UnquotedKey),
        _ => Err(Refusal::NoKind { number: kind }),
    }
}
