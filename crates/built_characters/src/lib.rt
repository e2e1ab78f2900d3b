// UTF-8 one byte at a time: the character in progress between two bytes of a document that comes in parts, and what one
// byte more does to it. Nothing here counts places: crate `built_parts` does. Rule: specs/Characters.antt.
#![tactic(auto)]

ghost use Rattle.std.specs.Prelude.{◌≡◌};
ghost use Rattle.built_characters.specs.Characters.{led_by, as_asked, character_turn};

use text_characters::{Lead, lead_of};

// The character in progress between two bytes: none; or so many bytes are still to come, the next from `low` to `high`.
// No Option: `Whole` says what none of three numbers would not.
#[derive(Clone, Copy, Debug, PartialEq, Eq)]
pub enum Character {
    Whole,
    Begun { left: usize, low: u8, high: u8 },
}

impl Character {
    // The character in progress after a byte; None where the byte may not stand there.
    #[tactic(auto, unfolding(crate::specs::Characters::character_turn))]
    pub fn turn(self, b: u8) -> Option<Character>
        ensures { result ≡ character_turn self b }
    {
        match self {
            Character::Whole => led_by(b),
            Character::Begun { left, low, high } => {
                if b < low || high < b {
                    return None;
                }
                Some(as_asked(left))
            }
        }
    }
}

// The first byte of a character, by the table of first bytes.
#[tactic(auto, unfolding(crate::specs::Characters::led_by))]
fn led_by(b: u8) -> Option<Character>
    ensures { result ≡ led_by b }
{
    let Lead(n, low, high) = lead_of(b);
    match n {
        0 => None,
        1 => Some(Character::Whole),
        _ => Some(Character::Begun {
            left: n - 1,
            low,
            high,
        }),
    }
}

// The character after one byte more that is as asked for.
fn as_asked(left: usize) -> Character
    ensures { result ≡ as_asked left }
{
    if left < 2 {
        return Character::Whole;
    }
    Character::Begun {
        left: left - 1,
        low: 0x80,
        high: 0xBF,
    }
}
