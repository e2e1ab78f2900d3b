// The UTF-8 check. Rules: Utf8.antt of crate `text_scalars`, and specs/CheckMeans.antt.
ghost use Rattle.std.specs.Prelude.{◌≡◌, ◌<◌, length, drop, MatchOption};
ghost use Rattle.text_scalars.specs.Utf8Read.{char_len, valid_prefix, Along};
ghost use Rattle.text_characters.specs.Lead.{BegunAt, fault_len};
ghost use Rattle.text.specs.CheckMeans.{check_of};
ghost use Rattle.text.specs.Told.{check_refusal, check_returned, check_fault};
ghost use Rattle.text_refusals.specs.Told.{told_number, told_value, told_length};

use text_ascii::{ascii_run, is_short_ascii};
use text_characters::{Lead, chars_run, is_among, lead_of};
use text_refusals::{LIMIT, Refusal};

// Is all of `s` UTF-8, and within the limit?
#[tactic(auto, unfolding(crate::specs::CheckMeans::check_of))]
pub fn check_utf8(s: &[u8]) -> Result<(), Refusal>
    ensures answer { result ≡ check_of s.now }
    ensures number { told_number result ≡ check_refusal s.now }
    ensures value { told_value result ≡ check_returned s.now }
    ensures length { told_length result ≡ check_fault s.now }
{
    if LIMIT < s.len() {
        return Err(Refusal::TooLong);
    }
    if is_short_ascii(s) {
        return Ok(());
    }
    let mut at = 0;
    // no iterator: a turn goes over as many characters as are passed at once
    while at < s.len() {
        let Some(next) = passed(s, at) else {
            let length = fault_at(s, at);
            return Err(Refusal::NotUtf8 { valid: at, length });
        };
        at = next;
    }
    Ok(())
}

// The place after the character at `at`, or after several that are passed at once, as a run of ASCII
// is; none where no character begins there.
fn passed(s: &[u8], at: usize) -> Option<usize>
    requires { at < length s.now }
    ensures { MatchOption result (valid_prefix (drop at s.now) ≡ 0) (λ after. (at < after) × Along s.now at after) }
{
    if s[at] < 0x80 {
        return Some(ascii_run(s, at));
    }
    let after = chars_run(s, at);
    if at < after {
        return Some(after);
    }
    Some(at + char_at(s, at)?)
}

// The length of the character at `at`, if one begins there.
fn char_at(s: &[u8], at: usize) -> Option<usize>
    requires { at < length s.now }
    ensures { MatchOption result (char_len (drop at s.now) ≡ 0) (λ n. (0 < n) × (n ≡ char_len (drop at s.now))) }
{
    let lead = lead_of(s[at]);
    let n = lead.0;
    if begun(s, at, lead) < n {
        return None;
    }
    if n == 0 { None } else { Some(n) }
}

// The length of the faulty sequence at `at`, where no character stands: as many bytes as begin one,
// and at least one; 0 where the text ends inside it.
// No Option: the 0 is what refusal 1 returns as its length (`check_fault`).
fn fault_at(s: &[u8], at: usize) -> usize
    requires { at < length s.now }
    ensures { result ≡ fault_len (drop at s.now) }
{
    let lead = lead_of(s[at]);
    if lead.0 == 0 {
        return 1;
    }
    let found = begun(s, at, lead);
    if found == s.len() - at { 0 } else { found }
}

// How many bytes from `at` on begin a character as its first byte asks. They are tested strictly in
// order, and each before the next is asked for.
fn begun(s: &[u8], at: usize, lead: Lead) -> usize
    requires { at < length s.now }
    ensures { BegunAt s.now at lead result }
{
    let left = s.len() - at;
    let n = lead.0;
    if n < 2 || left < 2 || !is_among(s[at + 1], lead.1, lead.2) {
        return 1;
    }
    if n < 3 || left < 3 || !is_among(s[at + 2], 0x80, 0xBF) {
        return 2;
    }
    if n < 4 || left < 4 || !is_among(s[at + 3], 0x80, 0xBF) {
        return 3;
    }
    4
}
