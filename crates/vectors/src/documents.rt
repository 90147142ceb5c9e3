// Whole documents: `document DOC BYTES`. Each is lexed, and the value of every string in it is read and handed back.
use crate::arrays::{MARK, Parts};
use crate::fields::Fields;
use crate::lexes::Memory;
use crate::shown::Bytes;
use crate::{lexes, strings};
use list::List;
use std::io;
use std::io::Write;

// The value of the string whose opener stands at a place, and its bytes: ` ; PLACE VALUE BYTES`.
fn print_string<W: Write>(
    to: &mut W,
    text: &[u8],
    list: List<'_>,
    lexemes: usize,
    place: usize,
) -> io::Result<()> {
    let mut arrays = Parts::marked();
    let mut parts = arrays.whole();
    let mut output = [MARK; 72];
    let answer = value::value(text, list, lexemes, place, &mut parts, &mut output, 0).answer;
    write!(to, " ; {place} ")?;
    strings::print_value(to, answer)?;
    match answer {
        Ok(held) => write!(to, " {}", Bytes(hand::hand(text, &output, held))),
        Err(_) => Ok(()),
    }
}

pub(crate) fn document<W: Write>(to: &mut W, mut fields: Fields<'_>) -> io::Result<()> {
    let doc = fields.doc();
    let mut room = [0; 640];
    let text = fields.bytes(&mut room);
    let mut memory = Memory::marked();
    let mut list = memory.list.whole();
    let mut stack = memory.stack.whole();
    let lexed = lexer::lex(doc, text, &mut list, &mut stack);
    lexes::print_lexed(to, lexed, &memory)?;
    let list = memory.list.list();
    for place in 0..list.end(lexed.lexemes) {
        if token::is_quote_open(list.get(place).kind) {
            print_string(to, text, list, lexed.lexemes, place)?;
        }
    }
    Ok(())
}
