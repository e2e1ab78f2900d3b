// The characters of a part. Rule: specs/Checking.antt.
ghost use Rattle.std.specs.Prelude.{◌≡◌, ◌+◌, ◌≤◌, ◌<◌, length};
ghost use Rattle.text_refusals.specs.declared.Refusal.TheVariants.{NotUtf8};
ghost use Rattle.built_parts.specs.Checking.{faulty_len, valid_at, checked};
ghost use Rattle.built_parts.specs.Passing.{stopped_at, PassedMeans};

use built_characters::Character;
use text_refusals::Refusal;

// What sound bytes come to: the character in progress after them, and the place up to which whole characters stand.
#[derive(Clone, Copy, Debug, PartialEq, Eq)]
pub struct Checked {
    pub character: Character,
    pub valid: usize,
}

// What others come to: that place, and the length of a faulty sequence there that nothing could mend.
#[derive(Clone, Copy, Debug, PartialEq, Eq)]
pub struct Faulty {
    pub valid: usize,
    pub length: usize,
}

impl From<Faulty> for Refusal {
    ghost from_gives = { λ f r. r ≡ NotUtf8 f.valid f.length };

    fn from(f: Faulty) -> Self {
        Refusal::NotUtf8 {
            valid: f.valid,
            length: f.length,
        }
    }
}

// The characters of a part, whose first byte stands at the place `at`. Where no character is in progress the check of whole
// documents passes over them, so that only a character that a seam cuts goes byte by byte.
pub(crate) fn check_part(
    character: Character,
    valid: usize,
    at: usize,
    part: &[u8],
) -> Result<Checked, Faulty>
    requires { at + length part.now ≤ 16777216 }
    ensures { result ≡ checked character valid at part.now }
{
    let mut c = character;
    let mut v = valid;
    let mut i = 0;
    // no iterator: a turn goes over whole characters, as far as they reach, and then over one byte
    'turns: loop {
        match passed(c, part, i) {
            Err(fault) => {
                return Err(Faulty {
                    valid: at + fault.valid,
                    length: fault.length,
                });
            }
            Ok(e) => {
                let w = valid_at(c, v, at + e);
                if part.len() <= e {
                    return Ok(Checked {
                        character: c,
                        valid: w,
                    });
                }
                match c.turn(part[e]) {
                    None => {
                        return Err(Faulty {
                            valid: w,
                            length: faulty_len(w, at + e),
                        });
                    }
                    Some(d) => {
                        c = d;
                        v = w;
                        i = e + 1;
                    }
                }
            }
        }
    }
}

// Up to where whole characters stand from i on, where none is in progress; or the faulty sequence after them.
fn passed(c: Character, part: &[u8], i: usize) -> Result<usize, Faulty>
    requires { (i ≤ length part.now) × (length part.now ≤ 16777216) }
    ensures { PassedMeans c part.now i result }
{
    match c {
        Character::Begun { .. } => Ok(i),
        Character::Whole => match text::check_utf8(&part[i..]) {
            Ok(()) => Ok(part.len()),
            Err(refusal) => stopped(i + refusal.value(), refusal.length()),
        },
    }
}

// Where the check stopped: before a faulty sequence, or before a character that is not whole yet.
fn stopped(place: usize, length: usize) -> Result<usize, Faulty>
    ensures { result ≡ stopped_at place length }
{
    if length == 0 {
        return Ok(place);
    }
    Err(Faulty {
        valid: place,
        length,
    })
}

fn valid_at(c: Character, valid: usize, at: usize) -> usize
    ensures { result ≡ valid_at c valid at }
{
    match c {
        Character::Whole => at,
        Character::Begun { .. } => valid,
    }
}

fn faulty_len(valid: usize, at: usize) -> usize
    ensures { result ≡ faulty_len valid at }
{
    if valid < at { at - valid } else { 1 }
}
