// The classes that have one byte alone, as patterns.
use super::Sign;

pub const TAB: u8 = Sign::Tab as u8;

pub const LF: u8 = Sign::Lf as u8;

pub const CR: u8 = Sign::Cr as u8;

pub const SPACE: u8 = Sign::Space as u8;

pub const QUOTATION_MARK: u8 = Sign::QuotationMark as u8;

pub const NUMBER_SIGN: u8 = Sign::NumberSign as u8;

pub const APOSTROPHE: u8 = Sign::Apostrophe as u8;

pub const COMMA: u8 = Sign::Comma as u8;

pub const DOT: u8 = Sign::Dot as u8;

pub const EQUALS: u8 = Sign::Equals as u8;

pub const BIG_U: u8 = Sign::BigU as u8;

pub const LEFT_SQUARE: u8 = Sign::LeftSquare as u8;

pub const BACKSLASH: u8 = Sign::Backslash as u8;

pub const RIGHT_SQUARE: u8 = Sign::RightSquare as u8;

pub const SMALL_B: u8 = Sign::SmallB as u8;

pub const SMALL_E: u8 = Sign::SmallE as u8;

pub const SMALL_F: u8 = Sign::SmallF as u8;

pub const SMALL_N: u8 = Sign::SmallN as u8;

pub const SMALL_R: u8 = Sign::SmallR as u8;

pub const SMALL_T: u8 = Sign::SmallT as u8;

pub const SMALL_U: u8 = Sign::SmallU as u8;

pub const SMALL_X: u8 = Sign::SmallX as u8;

pub const LEFT_CURLY: u8 = Sign::LeftCurly as u8;

pub const RIGHT_CURLY: u8 = Sign::RightCurly as u8;
