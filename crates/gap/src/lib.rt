// The gap rule: what stands between two lexemes that are written one after the other; and writing it.
#![tactic(auto)]

ghost use Rattle.std.specs.Prelude.{◌≡◌, ◌++◌, length};
ghost use Rattle.rules.specs.Tidy.{gap as gap_rule};
ghost use Rattle.output.specs.Places.{Put};
ghost use Rattle.gap.specs.Gaps.{gap_meant};

use output::{Full, Output};
use rules::kind;

// What stands between two lexemes.
#[derive(Clone, Copy, Debug, PartialEq, Eq)]
pub enum Gap {
    Nothing,
    LineEnd,
    Space,
}

// "Between two: nothing if either is Blank or the first is QuoteOpen, StringInner, Escape or HoleClose; one LF after LineComment or Shebang; else one space."
pub fn gap_between(first: u8, second: u8) -> Gap
    ensures { gap_meant result ≡ gap_rule first second }
{
    if (first == kind::BLANK) | (second == kind::BLANK) | token::joins_next(first) {
        return Gap::Nothing;
    }
    if (first == kind::SHEBANG) | (first == kind::LINE_COMMENT) {
        return Gap::LineEnd;
    }
    Gap::Space
}

// Writes a gap and the lexeme after it, whole or not.
pub fn put_piece(between: Gap, lexeme: &[u8], output: &mut Output<'_>) -> Result<(), Full>
    ensures { Put (gap_meant between ++ lexeme.now) output.old result output.new }
{
    match between {
        Gap::Nothing => output.put(lexeme),
        Gap::LineEnd => output.put_two(b"\n", lexeme),
        Gap::Space => output.put_two(b" ", lexeme),
    }
}

// How many bytes a gap has.
pub fn gap_length(between: Gap) -> usize
    ensures { result ≡ length (gap_meant between) }
{
    match between {
        Gap::Nothing => 0,
        Gap::LineEnd | Gap::Space => 1,
    }
}
