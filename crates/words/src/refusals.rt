// A refusal and its note in words: the one place where they are made.
ghost use Rattle.std.specs.Prelude.{◌≡◌};
ghost use Rattle.source.specs.Meaning.{note_meant};
ghost use Rattle.words.specs.Refusals.{told_said, NoteAs};

use source::{Refusal, Span};

// Whether there is a refusal, its number and its span.
#[repr(C)]
#[derive(Clone, Copy, Debug, Default, PartialEq, Eq)]
pub struct RefusalWords {
    pub refused: u64,
    pub number: u64,
    pub low: u64,
    pub high: u64,
}

// Whether there is a note, and its span.
#[repr(C)]
#[derive(Clone, Copy, Debug, Default, PartialEq, Eq)]
pub struct NoteWords {
    pub noted: u64,
    pub low: u64,
    pub high: u64,
}

impl From<Option<Refusal>> for RefusalWords {
    ghost from_gives = { λ told words. words ≡ told_said told };

    fn from(told: Option<Refusal>) -> RefusalWords {
        let Some(refusal) = told else {
            return RefusalWords::default();
        };
        RefusalWords {
            refused: 1,
            number: u64::from(u8::from(refusal.reason)),
            low: refusal.at.low,
            high: refusal.at.high,
        }
    }
}

impl From<Option<Span>> for NoteWords {
    ghost from_gives = { λ note words. NoteAs (note_meant note) words };

    fn from(note: Option<Span>) -> NoteWords {
        let Some(span) = note else {
            return NoteWords::default();
        };
        NoteWords {
            noted: 1,
            low: span.low,
            high: span.high,
        }
    }
}
