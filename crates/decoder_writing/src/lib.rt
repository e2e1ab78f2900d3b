// A text decoded by an encoding, into lent memory: what every call of crate `decoder` comes to, but for the texts that it copies
// at once. Rule: Decoding.antt of crate `decoder_rules`. write.rt has what stores.
#![tactic(auto)]

ghost use Rattle.std.specs.Prelude.{◌≡◌, true, ◌+◌, ◌/◌, ◌≤◌, ◌<◌, ◌^◌, length};
ghost use Rattle.decoder_rules.specs.Decoding.{bytes_of, errors_of, fitted, after};
ghost use Rattle.decoder_rules.proofs.StoreLaws.{Stored};
ghost use Rattle.decoder_marks.specs.Opening.{opened_of};
ghost use Rattle.decoder_writing.specs.Copies.{fitting, copied_to};

mod write;

use crate::write::{copy_in, note, write};
use decoder_marks::{Opened, open_text};
use decoder_pieces::{Bytes, Engine};
use decoder_reading::{Counts, count, noted};
use decoder_rules::{Decoded, Encoding};
use text_refusals::Refusal;

// Copies all of s to the front of the output and says how many bytes that is. Where there is no room nothing is copied: none.
pub fn copy_all(s: &[u8], output: &mut [u8]) -> Option<usize>
    ensures answer { result ≡ fitting s.now output.old }
    ensures output { output.new ≡ copied_to s.now output.old }
{
    let n = s.len();
    if output.len() < n {
        return None;
    }
    Some(copy_in(s, n, output, 0))
}

// Decodes a text, which has passed the check, by an encoding, with any engine that reads bytes (crate `decoder_pieces`). The bytes
// go to the front of the output, the errors to the front of the records; what is after them stays. Where the lent memory is too
// short nothing is written. The counting pass is left out where it cannot be.
pub fn decode_as<E: Engine>(
    e: Encoding,
    text: &[u8],
    output: &mut [u8],
    errors: &mut [[usize; 3]],
) -> Result<Decoded, Refusal>
    ensures answer { result ≡ fitted (bytes_of e text.now) (errors_of e text.now) (length output.old) (length errors.old) }
    ensures output { output.new ≡ after result (bytes_of e text.now) output.old }
    ensures records { errors.new ≡ after result (errors_of e text.now) errors.old }
{
    let opened = open_text(e, text);
    if !is_roomy(text.len(), output.len(), errors.len()) {
        let need = needed::<E>(e, opened, text);
        if output.len() < need.bytes {
            return Err(Refusal::ShortOutput { needed: need.bytes });
        }
        if errors.len() < need.errors {
            return Err(Refusal::FewErrors {
                needed: need.errors,
            });
        }
    }
    Ok(fill::<E>(e, opened, text, output, errors))
}

// Can no text of n bytes need more than o bytes and m records?
fn is_roomy(n: usize, o: usize, m: usize) -> bool
    requires { n < 2 ^ 63 }
    ensures { result ≡ true → (n + n / 2 ≤ o) × (n + 2 ≤ m) }
{
    if o < n + n / 2 {
        return false;
    }
    n + 2 <= m
}

// How many bytes and errors an opened text has.
fn needed<E: Bytes>(e: Encoding, opened: Opened, text: &[u8]) -> Counts
    requires { opened ≡ opened_of e text.now }
    ensures bytes { result.bytes ≡ length (bytes_of e text.now) }
    ensures errors { result.errors ≡ length (errors_of e text.now) }
{
    let c = count::<E>(e, opened.body, text);
    Counts {
        bytes: c.bytes,
        errors: noted(opened.opening) + (noted(opened.closing) + c.errors),
    }
}

// Writes them to the front of the lent memory. What stands for itself at the front of the body, which most often is all of it,
// is copied at once.
fn fill<E: Engine>(
    e: Encoding,
    opened: Opened,
    text: &[u8],
    output: &mut [u8],
    errors: &mut [[usize; 3]],
) -> Decoded
    requires { (opened ≡ opened_of e text.now)
        × (length (bytes_of e text.now) ≤ length output.old)
        × (length (errors_of e text.now) ≤ length errors.old) }
    ensures output { Stored output.old 0 (bytes_of e text.now) result.bytes output.new }
    ensures records { Stored errors.old 0 (errors_of e text.now) result.errors errors.new }
{
    let body = opened.body;
    let s = &text[body.at..body.end];
    let m = note(opened.opening, errors, 0);
    let m2 = note(opened.closing, errors, m);
    let plain = E::plain_run(e, s);
    let o = copy_in(s, plain, output, 0);
    write::<E>(e, body.past(plain), text, output, o, errors, m2)
}
