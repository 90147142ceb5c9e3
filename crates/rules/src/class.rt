// "The class of each of the 256 byte values", by the names of `Bytes.antt`.
// Kept: numbers, as the table holds them that is lent to `lex_in_letter`, which takes any table; one of an enum would ask more of whoever lends it.
pub const WHITESPACE: u8 = 0;

pub const CONTROL: u8 = 1;

pub const DIGIT: u8 = 2;

pub const LETTER: u8 = 3;

pub const PUNCTUATION: u8 = 4;

pub const OVER127: u8 = 5;
