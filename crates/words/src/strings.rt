// Escapes, indent, parts, values and the check of a part that is to be handed back. Their refusals have no note.
ghost use Rattle.std.specs.Prelude.{◌≡◌};
ghost use Rattle.source.specs.Meaning.{count_meant};
ghost use Rattle.value.specs.Meaning.{held_meant, held_answer};
ghost use Rattle.words.specs.Strings.{AnswerAs, PartedAs, ValuedAs, held_in, without_note};

use crate::refusals::RefusalWords;
use cst::Parted;
use source::Refusal;
use value::{Held, Valued};

// A number, or the refusal.
#[repr(C)]
#[derive(Clone, Copy, Debug, PartialEq, Eq)]
pub struct AnswerWords {
    pub refusal: RefusalWords,
    pub count: u64,
}

// The closer's place, or the refusal, and how many parts were put.
#[repr(C)]
#[derive(Clone, Copy, Debug, PartialEq, Eq)]
pub struct PartedWords {
    pub refusal: RefusalWords,
    pub closer: u64,
    pub parts: u64,
}

// Where a value stands, or the refusal: whether the output holds it, its start and end, and how many parts were put.
#[repr(C)]
#[derive(Clone, Copy, Debug, Default, PartialEq, Eq)]
pub struct ValuedWords {
    pub refusal: RefusalWords,
    pub output: u64,
    pub start: u64,
    pub end: u64,
    pub parts: u64,
}

impl From<Result<u64, Refusal>> for AnswerWords {
    ghost from_gives = { λ answer words. AnswerAs (without_note (count_meant answer)) words };

    fn from(answer: Result<u64, Refusal>) -> AnswerWords {
        AnswerWords {
            refusal: RefusalWords::from(answer.err()),
            count: answer.unwrap_or(0),
        }
    }
}

// The parts of a string.
impl From<Parted<usize>> for PartedWords {
    ghost from_gives = { λ r words. PartedAs (without_note (count_meant r.answer)) r.parts words };

    fn from(r: Parted<usize>) -> PartedWords {
        PartedWords {
            refusal: RefusalWords::from(r.answer.err()),
            closer: r.answer.unwrap_or(0) as u64,
            parts: r.parts as u64,
        }
    }
}

// The value of a string.
impl From<Valued> for ValuedWords {
    ghost from_gives = { λ r words. ValuedAs (without_note (held_answer r.answer)) r.parts words };

    fn from(r: Valued) -> ValuedWords {
        let parts = r.parts as u64;
        match r.answer {
            Ok(Held::Text(start, end)) => ValuedWords {
                start: start as u64,
                end: end as u64,
                parts,
                ..ValuedWords::default()
            },
            Ok(Held::Output(start, end)) => ValuedWords {
                output: 1,
                start: start as u64,
                end: end as u64,
                parts,
                ..ValuedWords::default()
            },
            Err(refusal) => ValuedWords {
                refusal: RefusalWords::from(Some(refusal)),
                parts,
                ..ValuedWords::default()
            },
        }
    }
}

// A part by a caller's words: of the text where `output` is 0.
pub fn part(output: u64, start: usize, end: usize) -> Held
    ensures { held_meant result ≡ held_in output start end }
{
    if output == 0 {
        Held::Text(start, end)
    } else {
        Held::Output(start, end)
    }
}
