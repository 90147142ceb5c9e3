// One step at a position, given a stack: a turn of the loop of `lex`.
ghost use Rattle.std.specs.Prelude.{◌≡◌};
ghost use Rattle.rules.specs.Walker.{nothing};
ghost use Rattle.source.specs.Meaning.{span_meant};
ghost use Rattle.list.specs.Entries.{lent_meant, SameArrays};
ghost use Rattle.lexer.specs.Memory.{opener_meant, end_by};
ghost use Rattle.lexer.specs.Stepping.{step_answer, stepped_by, walker_at, Walks, misplaced_by, nothing_if, StepsOn, CanStep};

use crate::{Cursor, Stepped, TokenAt, lent, lexing, pack};
use list::{Entry, ListMut};
use rules::Reason;
use source::{Refusal, Span};

// Whether the position is past the end, the depth above the places, or the innermost code no opener's.
fn misplaced(
    text: &[u8],
    position: usize,
    depth: usize,
    places: usize,
    opener: Option<Entry>,
) -> bool
    ensures { result ≡ misplaced_by text.now position depth places (opener_meant opener) }
{
    let other = match opener {
        Some(opener) => !token::opens(opener.kind),
        None => false,
    };
    (text.len() < position) | (places < depth) | other
}

// The answer at the text's end: nothing, or 25 to 28.
fn at_end(at: Span, opener: Option<Entry>) -> Result<Option<TokenAt>, Refusal>
    ensures { step_answer result ≡ nothing_if (end_by (span_meant at) (opener_meant opener)) }
{
    lent::at_end(at, opener)?;
    Ok(None)
}

// The walker stays where it is.
fn stays(answer: Result<Option<TokenAt>, Refusal>, position: usize, depth: usize) -> Stepped
    ensures { result ≡ stepped_by answer position depth }
{
    Stepped {
        answer,
        position,
        depth,
    }
}

// The step that begins at a position in the text, with a list of one place.
fn step_on(
    doc: u32,
    text: &[u8],
    position: usize,
    depth: usize,
    opener: Option<Entry>,
    stack: &mut ListMut<'_>,
) -> Stepped
    requires { CanStep text.now position depth (opener_meant opener) (lent_meant stack.old) }
    ensures steps { StepsOn doc text.now position depth (opener_meant opener) (lent_meant stack.old) result (lent_meant stack.new) }
    ensures same { SameArrays stack.old stack.new }
{
    let from = Cursor {
        at: position,
        depth,
        deepest: depth,
        ..Cursor::default()
    };
    let mut kinds = [0u8; 1];
    let mut words = [0u64; 2];
    let mut list = ListMut {
        kinds: &mut kinds,
        words: &mut words,
    };
    let opened = lent::opened(opener);
    let ran = lexing::run(doc, text, from, opened, position + 1, &mut list, stack);
    let cur = ran.cursor;
    match ran.end {
        Ok(token) => {
            let end = cur.at;
            let lexeme = TokenAt {
                token,
                at: pack(doc, position, end),
            };
            Stepped {
                answer: Ok(Some(lexeme)),
                position: end,
                depth: cur.depth,
            }
        }
        Err(fault) => {
            let refusal = lent::refusal(doc, fault, opener);
            stays(Err(refusal), position, depth)
        }
    }
}

// One step: "a step gives 2, then 40 with 0-0", then the end or a step in the text.
pub fn step_at(
    doc: u32,
    text: &[u8],
    position: usize,
    depth: usize,
    stack: &mut ListMut<'_>,
) -> Stepped
    ensures walks { Walks text.now (walker_at doc position depth nothing) (lent_meant stack.old) result (lent_meant stack.new) }
    ensures same { SameArrays stack.old stack.new }
{
    let start = source::start_of(doc);
    if rules::LIMIT < text.len() {
        return stays(Err(source::refuse(Reason::TooLong, start)), position, depth);
    }
    let places = stack.list().places();
    let opener = lent::top(stack.list(), depth);
    if misplaced(text, position, depth, places, opener) {
        return stays(
            Err(source::refuse(Reason::WrongForm, start)),
            position,
            depth,
        );
    }
    if text.len() <= position {
        let at = pack(doc, position, position);
        return stays(at_end(at, opener), position, depth);
    }
    step_on(doc, text, position, depth, opener, stack)
}
