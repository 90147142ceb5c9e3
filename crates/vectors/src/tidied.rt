// The tidy writer, and handing back.
use crate::arrays::{MARK, first};
use crate::fields::Fields;
use crate::lexes::Memory;
use crate::shown::{Bytes, Refused};
use crate::{lexes, shown};
use std::io;
use std::io::Write;

// `tidy DOC KINDS WORDS SKINDS SWORDS OUTPUT BYTES`
pub(crate) fn tidy<W: Write>(to: &mut W, mut fields: Fields<'_>) -> io::Result<()> {
    let doc = fields.doc();
    let mut memory = Memory::marked();
    let mut list = memory.list.lend(fields.lengths());
    let mut stack = memory.stack.lend(fields.lengths());
    let mut places = [MARK; 264];
    let output = first(&mut places, fields.size());
    let mut room = [0; 256];
    let text = fields.bytes(&mut room);
    let tidied = tidy::tidy(doc, text, &mut list, &mut stack, output);
    lexes::print_lexed(to, tidied.lexed, &memory)?;
    write!(to, " ; {} {}", tidied.written, Bytes(output))
}

// `hand WHICH START END OUTPUTBYTES BYTES`
pub(crate) fn hand<W: Write>(to: &mut W, mut fields: Fields<'_>) -> io::Result<()> {
    let held = words::part(fields.number(), fields.size(), fields.size());
    let mut places = [0; 256];
    let output = fields.bytes(&mut places);
    let mut room = [0; 256];
    let text = fields.bytes(&mut room);
    let checked = hand::check(text, output, held).map(|()| "given");
    shown::print_answer(to, checked.map_err(Refused))?;
    write!(to, " ; {}", Bytes(hand::hand(text, output, held)))
}
