// The tidy writer: a text's lexemes, with the gap rule's gaps between them.
#![tactic(auto)]

ghost use Rattle.std.specs.Prelude.{◌≡◌};
ghost use Rattle.rules.specs.Lent.{contents};
ghost use Rattle.rules.specs.Tidy.{Tidies};
ghost use Rattle.source.specs.Meaning.{verdict_meant};
ghost use Rattle.list.specs.Entries.{list_meant, lent_in, SameArrays};
ghost use Rattle.output.specs.Places.{SameBytes};
ghost use Rattle.lexer.specs.Results.{lexed_meant};
ghost use Rattle.tidy.specs.Pieces.{WritesPieces};

use lexer::Lexed;
use list::{List, ListMut};
use output::{Full, Output};
use rules::{Reason, kind};
use source::Refusal;

// What lexing answered, or the writing after it, and how many bytes were written.
#[derive(Clone, Copy, Debug, PartialEq, Eq)]
pub struct Tidied {
    pub lexed: Lexed,
    pub written: usize,
}

// Writes lexemes, from the output's start. "Nothing before the first": as after a Blank.
fn write_lexemes(text: &[u8], lexemes: List<'_>, output: &mut Output<'_>) -> Result<(), Refusal>
    requires { output.old.at ≡ 0 }
    ensures written { WritesPieces text.now (contents (list_meant lexemes.entry)) output.old.bytes.now (verdict_meant result) output.new.at output.new.bytes.now }
    ensures same { SameBytes output.old output.new }
{
    let mut first = kind::BLANK;
    for entry in lexemes {
        let between = gap::gap_between(first, entry.kind);
        let lexeme = source::resolve(text, entry.at);
        // Kept: a match, whose arms are what the laws of a piece that was written, and of one that was not, speak of.
        match gap::put_piece(between, lexeme, output) {
            Ok(()) => first = entry.kind,
            Err(Full) => return Err(source::refuse(Reason::OutputFull, entry.at)),
        }
    }
    Ok(())
}

// Lexes a text into a lent list with a lent stack, then writes it to the output: "Lexing refusals come first, then 46; writing begins at the output's start; the result adds the bytes written."
pub fn tidy(
    doc: u32,
    text: &[u8],
    list: &mut ListMut<'_>,
    stack: &mut ListMut<'_>,
    output: &mut [u8],
) -> Tidied
    ensures tidies { Tidies doc text.now (lent_in list.old) (lent_in stack.old) output.old (lexed_meant result.lexed) result.written (lent_in list.new) (lent_in stack.new) output.new }
    ensures same_list { SameArrays list.old list.new }
    ensures same_stack { SameArrays stack.old stack.new }
{
    let lexed = lexer::lex(doc, text, list, stack);
    let Ok(()) = lexed.answer else {
        return Tidied { lexed, written: 0 };
    };
    let lexemes = list.list().first(lexed.lexemes);
    let mut output = Output {
        bytes: output,
        at: 0,
    };
    let answer = write_lexemes(text, lexemes, &mut output);
    Tidied {
        lexed: Lexed { answer, ..lexed },
        written: output.at,
    }
}
