// The tally: direct lexing calls accepted and refused, and their steps, one record for all. Each number stops at 2^64 − 1.
#![tactic(auto)]

ghost use Rattle.std.specs.Prelude.{◌≡◌};
ghost use Rattle.rules.specs.Lexing.{Lexes};
ghost use Rattle.rules.specs.Tally.{fresh, tallied, after_call};
ghost use Rattle.source.specs.Meaning.{verdict_meant};
ghost use Rattle.list.specs.Entries.{lent_in, SameArrays};
ghost use Rattle.lexer.specs.Results.{lexed_meant};
ghost use Rattle.tally.specs.Meaning.{tally_meant};

use lexer::Lexed;
use list::ListMut;
use source::Refusal;

#[derive(Clone, Copy, Debug, PartialEq, Eq)]
pub struct Tally {
    pub accepted: u64,
    pub refused: u64,
    pub steps: u64,
}

// A result of lexing, and the tally after it.
#[derive(Clone, Copy, Debug, PartialEq, Eq)]
pub struct Counted {
    pub lexed: Lexed,
    pub tally: Tally,
}

// A fresh one. Kept: by hand, so that its contract says the rule's `fresh`; what is derived says of each number alone that it is 0.
impl Default for Tally {
    ghost is_default = { λ tally. tally_meant tally ≡ fresh };

    fn default() -> Tally {
        Tally {
            accepted: 0,
            refused: 0,
            steps: 0,
        }
    }
}

impl Tally {
    // The tally after one more lexing call.
    pub fn after(self, answer: Result<(), Refusal>, steps: u64) -> Tally
        ensures { tally_meant result ≡ tallied (tally_meant self) (verdict_meant answer) steps }
    {
        let counted = Tally {
            steps: self.steps.saturating_add(steps),
            ..self
        };
        match answer {
            Ok(()) => Tally {
                accepted: self.accepted.saturating_add(1),
                ..counted
            },
            Err(_) => Tally {
                refused: self.refused.saturating_add(1),
                ..counted
            },
        }
    }
}

// `lex`, counted: the tally before it goes in, and the one after it comes out.
pub fn lex_tallied(
    before: Tally,
    doc: u32,
    text: &[u8],
    list: &mut ListMut<'_>,
    stack: &mut ListMut<'_>,
) -> Counted
    ensures lexes { Lexes doc text.now (lent_in list.old) (lent_in stack.old) (lexed_meant result.lexed) (lent_in list.new) (lent_in stack.new) }
    ensures tally { tally_meant result.tally ≡ after_call (tally_meant before) (lexed_meant result.lexed) }
    ensures same_list { SameArrays list.old list.new }
    ensures same_stack { SameArrays stack.old stack.new }
{
    let lexed = lexer::lex(doc, text, list, stack);
    Counted {
        lexed,
        tally: before.after(lexed.answer, lexed.steps as u64),
    }
}
