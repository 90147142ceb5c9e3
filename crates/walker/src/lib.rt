// The walker: lexing step by step, with a stack in two lent arrays that the caller keeps.
#![tactic(auto)]

ghost use Rattle.std.specs.Prelude.{◌≡◌, Some};
ghost use Rattle.std.proofs.Math.Option.{some};
ghost use Rattle.rules.specs.Walker.{kept_of, kept_bad, kept_refusal};
ghost use Rattle.source.specs.Meaning.{refusal_meant};
ghost use Rattle.list.specs.Entries.{lent_meant, SameArrays};
ghost use Rattle.lexer.specs.Stepping.{walker_at, Walks};
ghost use Rattle.walker.specs.Meaning.{kept_meant};
ghost use Rattle.walker.specs.Walkers.{Opens, Steps};

use lexer::{Stepped, TokenAt};
use list::ListMut;
use rules::Reason;
use source::{Refusal, Span};

// What a walker keeps of a text that it cannot read: that it is too long (2), or where it is not UTF-8 (1).
#[derive(Clone, Copy, Debug, PartialEq, Eq)]
pub enum Kept {
    TooLong,
    NotUtf8(usize),
}

impl Kept {
    // The refusal that the walker of a document gives at every step.
    pub fn refusal(self, doc: u32) -> Refusal
        ensures { kept_refusal doc (kept_meant (Some self)) ≡ some (refusal_meant result) }
    {
        match self {
            Kept::TooLong => source::refuse(Reason::TooLong, source::start_of(doc)),
            Kept::NotUtf8(bad) => bad_at(doc, bad),
        }
    }
}

// Refusal 1 at a position; 40 at 0-0 where no span can have it.
pub fn bad_at(doc: u32, bad: usize) -> Refusal
    ensures { refusal_meant result ≡ kept_bad doc bad }
{
    match Span::new(doc, bad, bad) {
        Ok(at) => source::refuse(Reason::NotUtf8, at),
        Err(_) => source::refuse(Reason::WrongForm, source::start_of(doc)),
    }
}

// What a walker keeps that is opened with a text, for whoever keeps its place in numbers: 2, then 1.
pub fn open_from(text: &[u8]) -> Option<Kept>
    ensures { kept_meant result ≡ kept_of text.now }
{
    if rules::LIMIT < text.len() {
        return Some(Kept::TooLong);
    }
    match utf8::check(text) {
        Ok(()) => None,
        Err(error) => Some(Kept::NotUtf8(error.valid_up_to)),
    }
}

// One step, for whoever keeps a walker's place in numbers: the refusal that it keeps, or a step of the lexer.
pub fn step_from(
    doc: u32,
    text: &[u8],
    position: usize,
    depth: usize,
    kept: Option<Kept>,
    stack: &mut ListMut<'_>,
) -> Stepped
    ensures walks { Walks text.now (walker_at doc position depth (kept_meant kept)) (lent_meant stack.old) result (lent_meant stack.new) }
    ensures same { SameArrays stack.old stack.new }
{
    match kept {
        Some(kept) => Stepped {
            answer: Err(kept.refusal(doc)),
            position,
            depth,
        },
        None => lexer::step_at(doc, text, position, depth, stack),
    }
}

// A walker over a text that it borrows.
#[derive(Clone, Copy, Debug, PartialEq, Eq)]
pub struct Walker<'a> {
    pub text: &'a [u8],
    pub doc: u32,
    pub position: usize,
    pub depth: usize,
    pub kept: Option<Kept>,
}

// A step's answer, and the walker after it.
#[derive(Clone, Copy, Debug, PartialEq, Eq)]
pub struct Walked<'a> {
    pub answer: Result<Option<TokenAt>, Refusal>,
    pub next: Walker<'a>,
}

impl<'a> Walker<'a> {
    // A walker at a text's start, which keeps a refusal 2 or 1.
    #[tactic(auto, unfolding(rules::specs::Walker::opening))]
    pub fn open(text: &'a [u8], doc: u32) -> Walker<'a>
        ensures { Opens text.entry doc result }
    {
        Walker {
            text,
            doc,
            position: 0,
            depth: 0,
            kept: open_from(text),
        }
    }

    // One step, given a stack.
    pub fn step(self, stack: &mut ListMut<'_>) -> Walked<'a>
        ensures steps { Steps self.entry (lent_meant stack.old) result (lent_meant stack.new) }
        ensures same { SameArrays stack.old stack.new }
    {
        let stepped = step_from(
            self.doc,
            self.text,
            self.position,
            self.depth,
            self.kept,
            stack,
        );
        Walked {
            answer: stepped.answer,
            next: Walker {
                position: stepped.position,
                depth: stepped.depth,
                ..self
            },
        }
    }
}
