// The UTF-8 check, lexing, the tidy writer and the tally.
ghost use Rattle.std.specs.Prelude.{◌≡◌};
ghost use Rattle.utf8.specs.Meaning.{checked_meant};
ghost use Rattle.lexer.specs.Results.{lexed_meant};
ghost use Rattle.words.specs.Lexing.{offset_or_all, LexedAs, TidiedAs, CountedAs};

use crate::refusals::{NoteWords, RefusalWords};
use lexer::Lexed;
use tally::Counted;
use tidy::Tidied;
use utf8::Utf8Error;

// The result of lexing: the refusal, its note, and the counts.
#[repr(C)]
#[derive(Clone, Copy, Debug, PartialEq, Eq)]
pub struct LexedWords {
    pub refusal: RefusalWords,
    pub note: NoteWords,
    pub lexemes: u64,
    pub steps: u64,
    pub kept: u64,
    pub dropped: u64,
    pub deepest: u64,
}

// The result of tidying: that of lexing or of the writing after it, and the bytes written.
#[repr(C)]
#[derive(Clone, Copy, Debug, PartialEq, Eq)]
pub struct TidiedWords {
    pub lexed: LexedWords,
    pub written: u64,
}

// The result of a counted lexing call, and the tally after it.
#[repr(C)]
#[derive(Clone, Copy, Debug, PartialEq, Eq)]
pub struct CountedWords {
    pub lexed: LexedWords,
    pub accepted: u64,
    pub refused: u64,
    pub steps: u64,
}

// Where the first bad sequence begins, or 2^64 − 1 where the text is UTF-8.
pub fn offset(checked: Result<(), Utf8Error>) -> u64
    ensures { result ≡ offset_or_all (checked_meant checked) }
{
    match checked {
        Ok(()) => u64::MAX,
        Err(error) => error.valid_up_to as u64,
    }
}

impl From<Lexed> for LexedWords {
    ghost from_gives = { λ r words. LexedAs (lexed_meant r) words };

    fn from(r: Lexed) -> LexedWords {
        let refusal = r.answer.err();
        LexedWords {
            refusal: RefusalWords::from(refusal),
            note: NoteWords::from(refusal.and_then(|refusal| refusal.note)),
            lexemes: r.lexemes as u64,
            steps: r.steps as u64,
            kept: r.kept as u64,
            dropped: r.dropped as u64,
            deepest: r.deepest as u64,
        }
    }
}

impl From<Tidied> for TidiedWords {
    ghost from_gives = { λ r words. TidiedAs r words };

    fn from(r: Tidied) -> TidiedWords {
        TidiedWords {
            lexed: LexedWords::from(r.lexed),
            written: r.written as u64,
        }
    }
}

impl From<Counted> for CountedWords {
    ghost from_gives = { λ r words. CountedAs r words };

    fn from(r: Counted) -> CountedWords {
        CountedWords {
            lexed: LexedWords::from(r.lexed),
            accepted: r.tally.accepted,
            refused: r.tally.refused,
            steps: r.tally.steps,
        }
    }
}
