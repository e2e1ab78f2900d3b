// The second engine of the decoders of crate `decoder_pieces`: each byte is looked up, and what is asked is only whether its class is in
// a set, or which letter's class it is; no byte is compared with another, and no range is tested.
#![tactic(auto)]

ghost use Rattle.std.specs.Prelude.{◌≡◌, None};
ghost use Rattle.table_pieces.specs.Letters.{new_by};

use decoder_pieces::{Bytes, Engine, Escape};
use decoder_rules::{Edition, Encoding, Letter};
use table_classes::{Set, Sign, class, class_of, class_run, is_at, is_in};

#[derive(Clone, Copy)]
pub struct Table;

impl Bytes for Table {
    #[tactic(auto, unfolding(decoder_rules::specs::Encodings::mll_plain, decoder_rules::specs::Encodings::mlb_plain))]
    fn plain_run(e: Encoding, s: &[u8]) -> usize {
        match e {
            Encoding::LiteralString => class_run(Set::LiteralChar, s, 0),
            Encoding::MlLiteralString => class_run(Set::MllPlain, s, 0),
            Encoding::BasicString(_) => class_run(Set::BasicUnescaped, s, 0),
            Encoding::MlBasicString(_) => class_run(Set::MlbPlain, s, 0),
            Encoding::UnquotedKey => class_run(Set::UnquotedChar, s, 0),
        }
    }

    #[tactic(auto, unfolding(decoder_rules::specs::Encodings::basic_invalid))]
    fn basic_invalid(s: &[u8]) -> usize {
        class_run(Set::BasicInvalid, s, 0)
    }

    #[tactic(auto, unfolding(decoder_rules::specs::Encodings::mlb_invalid, decoder_rules::specs::Encodings::mlb_plain))]
    fn mlb_invalid(s: &[u8]) -> usize {
        class_run(Set::MlbInvalid, s, 0)
    }

    fn blanks(s: &[u8], start: usize) -> usize {
        class_run(Set::Wschar, s, start)
    }

    fn is_escape(s: &[u8], i: usize) -> bool {
        is_at(s, i, Sign::Backslash)
    }

    fn is_cr(s: &[u8], i: usize) -> bool {
        is_at(s, i, Sign::Cr)
    }

    fn is_lf(s: &[u8], i: usize) -> bool {
        is_at(s, i, Sign::Lf)
    }

    #[tactic(auto, using(text_classes::proofs::FirstLaws::first_there, text_classes::proofs::FirstLaws::first_beyond), unfolding(decoder_rules::specs::Bodies::skips))]
    fn is_skipped(s: &[u8], i: usize) -> bool {
        i < s.len() && is_in(Set::Skipped, s[i])
    }

    // By its class.
    #[tactic(auto, using(crate::proofs::LetterLaws::letter_by_lem), unfolding(crate::specs::Letters::letter_by))]
    fn letter_of(v: Edition, b: u8) -> Letter {
        let k = class_of(b);
        match k {
            class::QUOTATION_MARK => Letter::Stands(0x22),
            class::BACKSLASH => Letter::Stands(0x5C),
            class::SMALL_B => Letter::Stands(0x08),
            class::SMALL_F => Letter::Stands(0x0C),
            class::SMALL_N => Letter::Stands(0x0A),
            class::SMALL_R => Letter::Stands(0x0D),
            class::SMALL_T => Letter::Stands(0x09),
            class::SMALL_U => Letter::Asks(4),
            class::BIG_U => Letter::Asks(8),
            _ => new_letter(v, k),
        }
    }

    // Its low four bits, and 9 more where it is a letter, which are the digits from 40 on.
    #[tactic(auto, using(crate::proofs::DigitLaws::value_of))]
    fn digit_of(b: u8) -> Option<u32> {
        if is_in(Set::Hexdig, b) {
            Some((b % 16 + 9 * (b / 64)) as u32)
        } else {
            None
        }
    }
}

// The table reads piece by piece: it has no shortcut.
impl Engine for Table {
    ghost few_of = { λ e d s. None };

    ghost escape_of = { λ e s. None };

    ghost few_is = { λ e d s. tt };

    ghost escape_is = { λ e s. tt };

    fn few(_e: Encoding, _dropping: bool, _s: &[u8]) -> Option<usize> {
        None
    }

    fn escape(_e: Encoding, _s: &[u8]) -> Option<Escape> {
        None
    }
}

// What TOML 1.1 adds to the letters.
fn new_letter(v: Edition, k: u8) -> Letter
    ensures { result ≡ new_by v k }
{
    match v {
        Edition::Toml10 => Letter::Neither,
        Edition::Toml11 => match k {
            class::SMALL_E => Letter::Stands(0x1B),
            class::SMALL_X => Letter::Asks(2),
            _ => Letter::Neither,
        },
    }
}
