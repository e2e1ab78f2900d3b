// The calls over a document that comes in parts, as numbers: the state, which a caller in another language keeps between two
// calls, and the answers with the state after them. Definitions: specs/Numbers.antt. That the numbers of a state stand for that
// very state: specs/Kept.antt. The structs are the C interface, as in library_numbers, and so a mode is a number in them.
#![tactic(auto)]

ghost use Rattle.std.specs.Prelude.{◌≡◌};
ghost use Rattle.library_parts.specs.Numbers.{mode_number, mode_of, left_of, low_of, high_of, byte_from, character_from, is_ended};
ghost use Rattle.library_parts.specs.Numbers.{state_numbers, parts_from, start_numbers, fed_numbers};

use built_bytes::{Mode, Quote};
use built_characters::Character;
use built_lexing::Lexing;
use built_parts::{Fed, Parts};
use library_numbers::{AnswerNumbers, bit};

// The number of the mode; the place and the line of the first byte of the token in progress; those of the next byte; how many
// bytes of the character in progress are still to come, 0 where none is in progress, and the least and the greatest that the next
// of them may be; the place up to which whole characters stand; and 1 where nothing more is taken, else 0.
pub type StateNumbers = [usize; 10];

// A state by itself.
#[repr(C)]
#[derive(Clone, Copy)]
pub struct PartsNumbers {
    pub state: StateNumbers,
}

// `answer.value` is the count of tokens; the state afterwards.
#[repr(C)]
#[derive(Clone, Copy)]
pub struct FedNumbers {
    pub answer: AnswerNumbers,
    pub state: StateNumbers,
}

pub fn started(parts: Parts) -> PartsNumbers
    ensures { result ≡ start_numbers parts }
{
    let state = numbers_of(parts);
    PartsNumbers { state }
}

pub fn fed(fed: Fed) -> FedNumbers
    ensures { result ≡ fed_numbers fed }
{
    let answer = fed.answer;
    let parts = fed.parts;
    let state = numbers_of(parts);
    FedNumbers {
        answer: library_numbers::answered(answer),
        state,
    }
}

#[tactic(auto, unfolding(crate::specs::Numbers::state_numbers))]
fn numbers_of(parts: Parts) -> StateNumbers
    ensures { result ≡ state_numbers parts }
{
    let lexing = parts.lexing;
    let character = parts.character;
    let mode = lexing.mode;
    let (left, low, high) = awaited(character);
    [
        mode_number(mode),
        lexing.start,
        lexing.first,
        lexing.at,
        lexing.line,
        left,
        low,
        high,
        parts.valid,
        bit(parts.ended),
    ]
}

// The state of a caller, who may make it of any numbers.
#[tactic(auto, unfolding(crate::specs::Numbers::parts_from))]
pub fn parts_of(state: StateNumbers) -> Parts
    ensures { result ≡ parts_from state }
{
    let number = state[0];
    let lexing = Lexing {
        mode: mode_of(number),
        start: state[1],
        first: state[2],
        at: state[3],
        line: state[4],
    };
    let character = character_of(state[5], state[6], state[7]);
    Parts {
        lexing,
        character,
        valid: state[8],
        ended: is_ended(state[9], number),
    }
}

// A number that is no mode's stands for a state that takes nothing more.
fn is_ended(flag: usize, number: usize) -> bool
    ensures { result ≡ is_ended flag number }
{
    flag != 0 || 27 < number
}

// The numbers are the C interface.
#[tactic(auto, unfolding(crate::specs::Numbers::mode_number))]
fn mode_number(mode: Mode) -> usize
    ensures { result ≡ mode_number mode }
{
    match mode {
        Mode::Start => 0,
        Mode::Bom1 => 1,
        Mode::Bom2 => 2,
        Mode::Idle => 3,
        Mode::Blanks => 4,
        Mode::Remark => 5,
        Mode::Word => 6,
        Mode::Return => 7,
        Mode::One(Quote::Apostrophe) => 8,
        Mode::One(Quote::Quotation) => 9,
        Mode::Two(Quote::Apostrophe) => 10,
        Mode::Two(Quote::Quotation) => 11,
        Mode::Line(Quote::Apostrophe, false) => 12,
        Mode::Line(Quote::Quotation, false) => 13,
        Mode::Line(Quote::Apostrophe, true) => 14,
        Mode::Line(Quote::Quotation, true) => 15,
        Mode::Ml(Quote::Apostrophe, false) => 16,
        Mode::Ml(Quote::Quotation, false) => 17,
        Mode::Ml(Quote::Apostrophe, true) => 18,
        Mode::Ml(Quote::Quotation, true) => 19,
        Mode::MlOne(Quote::Apostrophe) => 20,
        Mode::MlOne(Quote::Quotation) => 21,
        Mode::MlTwo(Quote::Apostrophe) => 22,
        Mode::MlTwo(Quote::Quotation) => 23,
        Mode::Shut(Quote::Apostrophe) => 24,
        Mode::Shut(Quote::Quotation) => 25,
        Mode::ShutOne(Quote::Apostrophe) => 26,
        Mode::ShutOne(Quote::Quotation) => 27,
    }
}

// The mode that has a number; between two tokens where none has it.
// The numbers are the C interface.
#[tactic(auto, unfolding(crate::specs::Numbers::mode_of, crate::specs::Numbers::mode_number))]
fn mode_of(number: usize) -> Mode
    ensures { result ≡ mode_of number }
{
    match number {
        0 => Mode::Start,
        1 => Mode::Bom1,
        2 => Mode::Bom2,
        4 => Mode::Blanks,
        5 => Mode::Remark,
        6 => Mode::Word,
        7 => Mode::Return,
        8 => Mode::One(Quote::Apostrophe),
        9 => Mode::One(Quote::Quotation),
        10 => Mode::Two(Quote::Apostrophe),
        11 => Mode::Two(Quote::Quotation),
        12 => Mode::Line(Quote::Apostrophe, false),
        13 => Mode::Line(Quote::Quotation, false),
        14 => Mode::Line(Quote::Apostrophe, true),
        15 => Mode::Line(Quote::Quotation, true),
        16 => Mode::Ml(Quote::Apostrophe, false),
        17 => Mode::Ml(Quote::Quotation, false),
        18 => Mode::Ml(Quote::Apostrophe, true),
        19 => Mode::Ml(Quote::Quotation, true),
        20 => Mode::MlOne(Quote::Apostrophe),
        21 => Mode::MlOne(Quote::Quotation),
        22 => Mode::MlTwo(Quote::Apostrophe),
        23 => Mode::MlTwo(Quote::Quotation),
        24 => Mode::Shut(Quote::Apostrophe),
        25 => Mode::Shut(Quote::Quotation),
        26 => Mode::ShutOne(Quote::Apostrophe),
        27 => Mode::ShutOne(Quote::Quotation),
        _ => Mode::Idle,
    }
}

// How many bytes are still to come, and the least and the greatest that the next of them may be.
fn awaited(character: Character) -> (usize, usize, usize)
    ensures { result ≡ (left_of character, low_of character, high_of character) }
{
    match character {
        Character::Whole => (0, 0, 0),
        Character::Begun { left, low, high } => (left, low as usize, high as usize),
    }
}

fn character_of(left: usize, low: usize, high: usize) -> Character
    ensures { result ≡ character_from left low high }
{
    if left == 0 {
        return Character::Whole;
    }
    Character::Begun {
        left,
        low: byte_of(low),
        high: byte_of(high),
    }
}

// A byte; 255 for a number that is none.
fn byte_of(number: usize) -> u8
    ensures { result ≡ byte_from number }
{
    u8::try_from(number).unwrap_or(255)
}
