// Lexing: `lex DOC KINDS WORDS SKINDS SWORDS BYTES`.
use crate::arrays::Arrays;
use crate::fields::Fields;
use crate::shown;
use crate::shown::Refused;
use lexer::Lexed;
use std::io;
use std::io::Write;

// The arrays that a call is lent for its list and its stack.
#[derive(Drop)]
pub(crate) struct Memory {
    pub(crate) list: Arrays<168, 336>,
    pub(crate) stack: Arrays<72, 144>,
}

impl Memory {
    pub(crate) fn marked() -> Memory {
        Memory {
            list: Arrays::marked(),
            stack: Arrays::marked(),
        }
    }
}

// The answer and the counts, the list, and how far list and stack were written: of the stack what lies below the deepest nesting is free.
pub(crate) fn print_lexed<W: Write>(to: &mut W, lexed: Lexed, memory: &Memory) -> io::Result<()> {
    shown::print_answer(to, lexed.answer.map(|()| "accepted").map_err(Refused))?;
    write!(
        to,
        " ; {} {} {} {} {} ;",
        lexed.lexemes, lexed.steps, lexed.kept, lexed.dropped, lexed.deepest
    )?;
    shown::print_list(to, memory.list.list(), lexed.lexemes)?;
    let list = memory.list.ends();
    let stack = memory.stack.ends();
    write!(
        to,
        " ; {} {} {} {}",
        list.kinds,
        list.words,
        stack.kinds.max(lexed.deepest),
        stack.words.max(lexed.deepest.saturating_mul(2))
    )
}

pub(crate) fn lex<W: Write>(to: &mut W, mut fields: Fields<'_>) -> io::Result<()> {
    let doc = fields.doc();
    let mut memory = Memory::marked();
    let mut list = memory.list.lend(fields.lengths());
    let mut stack = memory.stack.lend(fields.lengths());
    let mut room = [0; 256];
    let text = fields.bytes(&mut room);
    let lexed = lexer::lex(doc, text, &mut list, &mut stack);
    print_lexed(to, lexed, &memory)
}
