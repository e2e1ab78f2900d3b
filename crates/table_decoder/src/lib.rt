// The second decoders: the calls of crate `decoder` under their names and with their promises, by the table of byte classes. The
// bytes of a body are looked up, each in the table, and no range is tested; the refusals, the UTF-8 check, the marks, the loops over
// the pieces and the lent memory are the first decoders'. Rule: Decoding.antt of crate `decoder_rules`.
#![tactic(auto)]

ghost use Rattle.std.specs.Prelude.{◌≡◌, length};
ghost use Rattle.text.specs.Told.{check_fault};
ghost use Rattle.decoder_rules.specs.Encodings.{choice_by};
ghost use Rattle.decoder_rules.specs.Decoding.{bytes_by, errors_by, decode_in, after};
ghost use Rattle.text_refusals.specs.Told.{told_number, told_length};
ghost use Rattle.decoder_rules.specs.Told.{decoded_value, decoded_errors, decode_refusal, decode_returned, decode_noted};

use decoder::{Decoded, decode_by};
use decoder_rules::Edition;
use table_pieces::Table;
use text_refusals::Refusal;

// Decodes a text of the kind that the number says, in TOML 1.0.
pub fn decode(
    text: &[u8],
    kind: usize,
    output: &mut [u8],
    errors: &mut [[usize; 3]],
) -> Result<Decoded, Refusal>
    ensures answer { result ≡ decode_in text.now 10 kind (length output.old) (length errors.old) }
    ensures output { output.new ≡ after result (bytes_by (choice_by 10 kind) text.now) output.old }
    ensures records { errors.new ≡ after result (errors_by (choice_by 10 kind) text.now) errors.old }
    ensures number { told_number result ≡ decode_refusal text.now 10 kind (length output.old) (length errors.old) }
    ensures value { decoded_value result ≡ decode_returned text.now 10 kind (length output.old) (length errors.old) }
    ensures noted { decoded_errors result ≡ decode_noted text.now 10 kind (length output.old) (length errors.old) }
    ensures length { told_length result ≡ check_fault text.now }
{
    decode_by::<Table>(text, Edition::TOML_10, kind, output, errors)
}

// The same in the edition of TOML that a number names: 10 for TOML 1.0, 11 for TOML 1.1.
pub fn decode_in(
    text: &[u8],
    edition: usize,
    kind: usize,
    output: &mut [u8],
    errors: &mut [[usize; 3]],
) -> Result<Decoded, Refusal>
    ensures answer { result ≡ decode_in text.now edition kind (length output.old) (length errors.old) }
    ensures output { output.new ≡ after result (bytes_by (choice_by edition kind) text.now) output.old }
    ensures records { errors.new ≡ after result (errors_by (choice_by edition kind) text.now) errors.old }
    ensures number { told_number result ≡ decode_refusal text.now edition kind (length output.old) (length errors.old) }
    ensures value { decoded_value result ≡ decode_returned text.now edition kind (length output.old) (length errors.old) }
    ensures noted { decoded_errors result ≡ decode_noted text.now edition kind (length output.old) (length errors.old) }
    ensures length { told_length result ≡ check_fault text.now }
{
    decode_by::<Table>(text, edition, kind, output, errors)
}
