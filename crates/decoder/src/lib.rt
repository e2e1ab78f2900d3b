// `decode`: the text of a string token or a key, into lent memory. Rule: Decoding.antt of crate
// `decoder_rules`.
#![tactic(auto)]

ghost use Rattle.std.specs.Prelude.{◌≡◌, true, Ok, MatchOption, length};
ghost use Rattle.text.specs.Told.{check_fault};
ghost use Rattle.text_refusals.specs.Told.{told_number, told_length};
ghost use Rattle.decoder_rules.specs.Encodings.{choice_by};
ghost use Rattle.decoder_rules.specs.Decoding.{bytes_by, errors_by, decoded_by, decode_in, after};
ghost use Rattle.decoder_rules.specs.Told.{decoded_value, decoded_errors, decode_refusal, decode_returned, decode_noted};
ghost use Rattle.decoder_rules.proofs.PlainLaws.{Named};
ghost use Rattle.decoder_rules.proofs.KeyLaws.{WholeCopied};
ghost use Rattle.decoder.specs.AtOnce.{AtOnce};

use decoder_marks::choice_by;
use decoder_pieces::{Engine, Ranges};
use decoder_plain::copy_plain;
pub use decoder_rules::Decoded;
use decoder_rules::{Edition, Encoding};
use decoder_scans::plain_run;
use decoder_short::copy_short;
use decoder_writing::{copy_all, decode_as};
use lexer_token::TokenKind;
use text::check_utf8;
use text_refusals::{LIMIT, Refusal};

// Decodes a text of the kind that the number says: 39 literal, 34 basic, 1 ml-literal, 2 ml-basic,
// 3 a key. The bytes go to the front of the output; the errors, as number, start and end, to the
// front of the records; what is after them stays. A call that is refused writes nothing.
pub fn decode(
    text: &[u8],
    kind: usize,
    output: &mut [u8],
    errors: &mut [[usize; 3]],
) -> Result<Decoded, Refusal>
    ensures answer { result ≡ decode_in text.now 10 kind (length output.old) (length errors.old) }
    ensures output { output.new ≡ after result (bytes_by (choice_by 10 kind) text.now) output.old }
    ensures records { errors.new ≡ after result (errors_by (choice_by 10 kind) text.now) errors.old }
    ensures number { told_number result ≡ decode_refusal text.now 10 kind (length output.old) (length errors.old) }
    ensures value { decoded_value result ≡ decode_returned text.now 10 kind (length output.old) (length errors.old) }
    ensures noted { decoded_errors result ≡ decode_noted text.now 10 kind (length output.old) (length errors.old) }
    ensures length { told_length result ≡ check_fault text.now }
{
    if let Some(n) = copy_plain(kind, text, output) {
        return Ok(Decoded {
            bytes: n,
            errors: 0,
        });
    }
    decode_checked(text, Edition::TOML_10, kind, output, errors)
}

// The same in the edition of TOML that a number names: 10 for TOML 1.0, 11 for TOML 1.1.
pub fn decode_in(
    text: &[u8],
    edition: usize,
    kind: usize,
    output: &mut [u8],
    errors: &mut [[usize; 3]],
) -> Result<Decoded, Refusal>
    ensures answer { result ≡ decode_in text.now edition kind (length output.old) (length errors.old) }
    ensures output { output.new ≡ after result (bytes_by (choice_by edition kind) text.now) output.old }
    ensures records { errors.new ≡ after result (errors_by (choice_by edition kind) text.now) errors.old }
    ensures number { told_number result ≡ decode_refusal text.now edition kind (length output.old) (length errors.old) }
    ensures value { decoded_value result ≡ decode_returned text.now edition kind (length output.old) (length errors.old) }
    ensures noted { decoded_errors result ≡ decode_noted text.now edition kind (length output.old) (length errors.old) }
    ensures length { told_length result ≡ check_fault text.now }
{
    if let Some(n) = copy_named(edition, kind, text, output) {
        return Ok(Decoded {
            bytes: n,
            errors: 0,
        });
    }
    decode_checked(text, edition, kind, output, errors)
}

// Any text: the check comes first, but for a plain key and for a short string whose escapes are of one letter.
fn decode_checked(
    text: &[u8],
    edition: usize,
    kind: usize,
    output: &mut [u8],
    errors: &mut [[usize; 3]],
) -> Result<Decoded, Refusal>
    ensures answer { result ≡ decode_in text.now edition kind (length output.old) (length errors.old) }
    ensures output { output.new ≡ after result (bytes_by (choice_by edition kind) text.now) output.old }
    ensures records { errors.new ≡ after result (errors_by (choice_by edition kind) text.now) errors.old }
    ensures number { told_number result ≡ decode_refusal text.now edition kind (length output.old) (length errors.old) }
    ensures value { decoded_value result ≡ decode_returned text.now edition kind (length output.old) (length errors.old) }
    ensures noted { decoded_errors result ≡ decode_noted text.now edition kind (length output.old) (length errors.old) }
    ensures length { told_length result ≡ check_fault text.now }
{
    if let Some(n) = copy_at_once(edition, kind, text, output) {
        return Ok(Decoded {
            bytes: n,
            errors: 0,
        });
    }
    decode_by::<Ranges>(text, edition, kind, output, errors)
}

// The same by any engine that reads bytes, with no text copied at once.
pub fn decode_by<E: Engine>(
    text: &[u8],
    edition: usize,
    kind: usize,
    output: &mut [u8],
    errors: &mut [[usize; 3]],
) -> Result<Decoded, Refusal>
    ensures answer { result ≡ decode_in text.now edition kind (length output.old) (length errors.old) }
    ensures output { output.new ≡ after result (bytes_by (choice_by edition kind) text.now) output.old }
    ensures records { errors.new ≡ after result (errors_by (choice_by edition kind) text.now) errors.old }
    ensures number { told_number result ≡ decode_refusal text.now edition kind (length output.old) (length errors.old) }
    ensures value { decoded_value result ≡ decode_returned text.now edition kind (length output.old) (length errors.old) }
    ensures noted { decoded_errors result ≡ decode_noted text.now edition kind (length output.old) (length errors.old) }
    ensures length { told_length result ≡ check_fault text.now }
{
    check_utf8(text)?;
    decode_chosen::<E>(choice_by(edition, kind), text, output, errors)
}

// A text that passed the check, by the encoding that was chosen, or a refusal.
fn decode_chosen<E: Engine>(
    choice: Result<Encoding, Refusal>,
    text: &[u8],
    output: &mut [u8],
    errors: &mut [[usize; 3]],
) -> Result<Decoded, Refusal>
    ensures answer { result ≡ decoded_by (Ok tt) choice text.now (length output.old) (length errors.old) }
    ensures output { output.new ≡ after result (bytes_by choice text.now) output.old }
    ensures records { errors.new ≡ after result (errors_by choice text.now) errors.old }
{
    let e = choice?;
    decode_as::<E>(e, text, output, errors)
}

// What is decoded ahead of the check, without a pass over pieces: a plain line, a plain key, and a short string whose escapes are of
// one letter. Editions differ in none of these; of any other text, and where there is no room or no such edition, nothing is
// written. The plain line, which most texts are, is apart: each call asks for it itself, before it calls what is common to both.
fn copy_named(edition: usize, kind: usize, text: &[u8], output: &mut [u8]) -> Option<usize>
    ensures { MatchOption result (output.new ≡ output.old) (AtOnce edition kind text.now output.old output.new) }
{
    if !is_edition(edition) {
        return None;
    }
    copy_plain(kind, text, output)
}

fn is_edition(number: usize) -> bool
    ensures { result ≡ true → Named number }
{
    Edition::try_from(number).is_ok()
}

// The key and the short string.
fn copy_at_once(edition: usize, kind: usize, text: &[u8], output: &mut [u8]) -> Option<usize>
    ensures { MatchOption result (output.new ≡ output.old) (AtOnce edition kind text.now output.old output.new) }
{
    if !is_edition(edition) {
        return None;
    }
    match kind {
        TokenKind::ATOM => copy_key(text, output),
        TokenKind::BASIC_STRING => copy_short(text, output),
        _ => None,
    }
}

// Copies a key that is plain to the front of the output, and says its length. Of any other text, and where there is no room,
// nothing is copied.
fn copy_key(text: &[u8], output: &mut [u8]) -> Option<usize>
    ensures { MatchOption result (output.new ≡ output.old) (WholeCopied text.now output.old output.new) }
{
    let n = text.len();
    if n == 0 || LIMIT < n {
        return None;
    }
    if plain_run(Encoding::UnquotedKey, text) < n {
        return None;
    }
    copy_all(text, output)
}
