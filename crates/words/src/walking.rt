// The walker: what it keeps, what a caller's words tell of that, and its steps.
ghost use Rattle.std.specs.Prelude.{◌≡◌, cond, ltb, Some, codes};
ghost use Rattle.rules.specs.Refusals.{TooLong, WrongForm};
ghost use Rattle.rules.specs.Spans.{span, limit};
ghost use Rattle.rules.specs.Answers.{refuse};
ghost use Rattle.rules.specs.Walker.{kept_refusal};
ghost use Rattle.lexer.specs.Stepping.{step_answer};
ghost use Rattle.walker.specs.Meaning.{kept_meant};
ghost use Rattle.words.specs.Walking.{kept_said, told_meant, told_at, told_by, SteppedAs};

use crate::refusals::{NoteWords, RefusalWords};
use lexer::Stepped;
use rules::Reason;
use source::Span;
use std::error::Error;
use std::fmt;
use walker::Kept;

// Words that tell of something that no walker of the document keeps.
#[derive(Clone, Copy, Debug, PartialEq, Eq)]
pub struct NotKept;

impl fmt::Display for NotKept {
    ghost output = { λ not_kept. Some (codes "no walker of the document keeps that") };

    fn fmt<W: fmt::Write>(&self, f: &mut fmt::Formatter<W>) -> fmt::Result {
        f.write_str("no walker of the document keeps that")
    }
}

impl Error for NotKept {}

// A step: 0 for a lexeme, 1 for the end, 2 for a refusal; the kind or the number, the span, the note; where the walker then stands. A lexeme and a refusal share number and span, so these are no RefusalWords.
#[repr(C)]
#[derive(Clone, Copy, Debug, Default, PartialEq, Eq)]
pub struct SteppedWords {
    pub answer: u64,
    pub number: u64,
    pub low: u64,
    pub high: u64,
    pub note: NoteWords,
    pub position: u64,
    pub depth: u64,
}

// What a walker keeps: the refusal that it gives at every step.
#[tactic(auto, using(crate::proofs::Keeping::kept_said_by))]
pub fn kept(doc: u32, kept: Option<Kept>) -> RefusalWords
    ensures { result ≡ kept_said (kept_refusal doc (kept_meant kept)) }
{
    RefusalWords::from(kept.map(|kept| kept.refusal(doc)))
}

// The numbers of the refusals that a walker keeps.
const NOT_UTF8: u64 = 1;

const TOO_LONG: u64 = 2;

// What a walker keeps by a number and an empty span there.
fn told_at(number: u64, at: usize) -> Result<Option<Kept>, NotKept>
    ensures { told_meant result ≡ told_at number at }
{
    match (number, at) {
        (NOT_UTF8, _) => Ok(Some(Kept::NotUtf8(at))),
        (TOO_LONG, 0) => Ok(Some(Kept::TooLong)),
        _ => Err(NotKept),
    }
}

// What words tell that a walker of the document keeps.
#[tactic(auto, unfolding(crate::specs::Walking::told_by))]
pub fn told_by(doc: u32, kept: RefusalWords) -> Result<Option<Kept>, NotKept>
    ensures { told_meant result ≡ told_by doc kept.refused kept.number kept.low kept.high }
{
    if kept == RefusalWords::default() {
        return Ok(None);
    }
    let at = Span {
        low: kept.low,
        high: kept.high,
    };
    let start = at.start();
    if kept.refused == 1 && at.doc() == doc && start == at.end() {
        return told_at(kept.number, start);
    }
    Err(NotKept)
}

impl From<Stepped> for SteppedWords {
    ghost from_gives = { λ r words. SteppedAs (step_answer r.answer) r.position r.depth words };

    // Inlined: each step of a walker makes such words, and they are then written where the caller wants them.
    #[inline]
    fn from(r: Stepped) -> SteppedWords {
        let stands = SteppedWords {
            position: r.position as u64,
            depth: r.depth as u64,
            ..SteppedWords::default()
        };
        match r.answer {
            Ok(Some(found)) => SteppedWords {
                answer: 0,
                number: u64::from(u8::from(found.token)),
                low: found.at.low,
                high: found.at.high,
                ..stands
            },
            Ok(None) => SteppedWords {
                answer: 1,
                ..stands
            },
            Err(refusal) => {
                let words = RefusalWords::from(Some(refusal));
                SteppedWords {
                    answer: 2,
                    number: words.number,
                    low: words.low,
                    high: words.high,
                    note: NoteWords::from(refusal.note),
                    ..stands
                }
            }
        }
    }
}

// A step where a walker is told of something that none keeps: 2 of a text of so many bytes, then 40.
pub fn wrong(doc: u32, bytes: usize, position: usize, depth: usize) -> SteppedWords
    ensures { SteppedAs (refuse (cond (ltb limit bytes) TooLong WrongForm) (span doc 0 0)) position depth result }
{
    let reason = if rules::LIMIT < bytes {
        Reason::TooLong
    } else {
        Reason::WrongForm
    };
    SteppedWords::from(Stepped {
        answer: Err(source::refuse(reason, source::start_of(doc))),
        position,
        depth,
    })
}
