// Sets of bytes as values: how far a run of their bytes goes, and how many of them there are.
ghost use Rattle.std.specs.Prelude.{◌≡◌, ℕ, Bool, not, ◌+◌, drop, count_by};
ghost use Rattle.text_classes.specs.Classes.{wschar, token_start, unquoted_char, continuation};
ghost use Rattle.text_classes.specs.Runs.{run};

use super::{is_continuation, is_token_start, is_unquoted_char, is_wschar};

// A set of bytes.
pub trait ByteSet: Copy {
    ghost holds: { Self → ℕ → Bool };

    fn holds(self, b: u8) -> bool
        ensures { result ≡ holds self b };
}

#[derive(Clone, Copy)]
pub struct Wschar;

impl ByteSet for Wschar {
    ghost holds = { λ _. wschar };

    fn holds(self, b: u8) -> bool {
        is_wschar(b)
    }
}

#[derive(Clone, Copy)]
pub struct TokenStart;

impl ByteSet for TokenStart {
    ghost holds = { λ _. token_start };

    fn holds(self, b: u8) -> bool {
        is_token_start(b)
    }
}

#[derive(Clone, Copy)]
pub struct UnquotedChar;

impl ByteSet for UnquotedChar {
    ghost holds = { λ _. unquoted_char };

    fn holds(self, b: u8) -> bool {
        is_unquoted_char(b)
    }
}

#[derive(Clone, Copy)]
pub struct Continuation;

impl ByteSet for Continuation {
    ghost holds = { λ _. continuation };

    fn holds(self, b: u8) -> bool {
        is_continuation(b)
    }
}

// The bytes that are not in a set.
#[derive(Clone, Copy)]
pub struct Not<S>(pub S);

impl<S: ByteSet> ByteSet for Not<S> {
    ghost holds = { λ set b. not (S.holds set.0 b) };

    fn holds(self, b: u8) -> bool {
        !self.0.holds(b)
    }
}

// The place of the first byte from `start` on that is not in the set, or the end; beyond the end `start` itself.
pub fn run_of<S: ByteSet>(set: S, s: &[u8], start: usize) -> usize
    ensures { result ≡ start + run (S.holds set) (drop start s.now) }
{
    for i in start..s.len() {
        if !set.holds(s[i]) {
            return i;
        }
    }
    start.max(s.len())
}

// How many bytes are in the set: counted in blocks of 128 as long as so many are left.
pub fn count_of<S: ByteSet>(set: S, s: &[u8]) -> usize
    ensures { result ≡ count_by (S.holds set) s.now }
{
    let mut n = 0;
    let mut left = s;
    while let Some((block, rest)) = left.split_first_chunk::<128>() {
        n += count_block(set, block);
        left = rest;
    }
    n + count_few(set, left)
}

fn count_few<S: ByteSet>(set: S, s: &[u8]) -> usize
    ensures { result ≡ count_by (S.holds set) s.now }
{
    s.iter().filter(|b| set.holds(**b)).count()
}

// How many bytes of a block are in the set: counted in a byte, so that the compiler adds sixteen at once. A shorter block it would
// unroll instead, and add one by one.
fn count_block<S: ByteSet>(set: S, block: &[u8; 128]) -> usize
    ensures { result ≡ count_by (S.holds set) block.now }
{
    let mut n: u8 = 0;
    for b in block {
        if set.holds(*b) {
            n += 1;
        }
    }
    n as usize
}
