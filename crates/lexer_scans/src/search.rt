// Searches. A search goes over the bytes of a set: blocks of them as long as whole ones are left, then the bytes one by one. It is
// compiled into its callers, with the bytes of their sets as constants.
ghost use Rattle.std.specs.Prelude.{◌≡◌, ◌+◌, ◌≤◌, ◌<◌, ℕ, length, drop, MatchResult};
ghost use Rattle.std.proofs.Common.{refl, ltb-true};
ghost use Rattle.text_classes.specs.Runs.{run};
ghost use Rattle.lexer_scans.specs.Scans.{but_one, but_two, but_three, Clear, GoesOn};

use text_classes::{ByteSet, run_of};

// A set that is gone over in blocks: `holds` has no jump, so that the compiler asks it of sixteen bytes at once.
pub trait Passed: ByteSet {
    // the bytes of a block: so few that little is read in vain, and so many that the compiler does not unroll its loop
    const BLOCK: u8;

    ghost BLOCK: { ℕ };

    ghost some: { 0 < BLOCK };
}

// Any byte but one, two or three.
#[derive(Clone, Copy)]
pub struct ButOne(pub u8);

#[derive(Clone, Copy)]
pub struct ButTwo(pub u8, pub u8);

#[derive(Clone, Copy)]
pub struct ButThree(pub u8, pub u8, pub u8);

impl ByteSet for ButOne {
    ghost holds = { λ set. but_one set.0 };

    fn holds(self, b: u8) -> bool {
        b != self.0
    }
}

impl ByteSet for ButTwo {
    ghost holds = { λ set. but_two set.0 set.1 };

    fn holds(self, b: u8) -> bool {
        (b != self.0) & (b != self.1)
    }
}

impl ByteSet for ButThree {
    ghost holds = { λ set. but_three set.0 set.1 set.2 };

    fn holds(self, b: u8) -> bool {
        (b != self.0) & (b != self.1) & (b != self.2)
    }
}

impl Passed for ButOne {
    const BLOCK: u8 = 64;

    ghost BLOCK = { 64 };

    ghost some = { ltb-true 0 64 refl };
}

impl Passed for ButTwo {
    const BLOCK: u8 = 48;

    ghost BLOCK = { 48 };

    ghost some = { ltb-true 0 48 refl };
}

impl Passed for ButThree {
    const BLOCK: u8 = 32;

    ghost BLOCK = { 32 };

    ghost some = { ltb-true 0 32 refl };
}

// The place of the first byte from `start` on that is not in the set, or the end; beyond the end `start` itself.
#[inline(always)]
pub fn find<S: Passed>(set: S, doc: &[u8], start: usize) -> usize
    ensures { result ≡ start + run (S.holds set) (drop start doc.now) }
{
    match find_in_blocks(set, doc, start) {
        Ok(found) => found,
        Err(rest) => run_of(set, doc, rest),
    }
}

// The same by whole blocks alone: the place of such a byte, else the place from which fewer bytes than a block are left, before
// which there is none.
#[inline(always)]
pub fn find_in_blocks<S: Passed>(set: S, doc: &[u8], start: usize) -> Result<usize, usize>
    ensures { MatchResult result (λ found. found ≡ start + run (S.holds set) (drop start doc.now)) (λ rest. GoesOn (S.holds set) doc.now start rest) }
{
    let size = usize::from(S::BLOCK);
    let mut i = start;
    if size <= doc.len() {
        let last = doc.len() - size;
        // no iterator: what is asked for is the place behind the blocks, which `chunks_exact` would have counted beside it
        while i <= last {
            let n = clear_of(set, doc, i);
            if n < size {
                return Ok(i + n);
            }
            i += size;
        }
    }
    Err(i)
}

// How many bytes of the block from i on stand before the first that is not in the set: the least of their places, counted in a
// byte, so that the compiler takes sixteen at once.
#[inline(always)]
fn clear_of<S: Passed>(set: S, doc: &[u8], i: usize) -> usize
    requires { i + S.BLOCK ≤ length doc.now }
    ensures { Clear (S.holds set) doc.now i S.BLOCK result }
{
    let mut first = S::BLOCK;
    for k in 0..S::BLOCK {
        let place = if set.holds(doc[i + usize::from(k)]) {
            u8::MAX
        } else {
            k
        };
        first = first.min(place);
    }
    usize::from(first)
}
