// Lexing with a tally: `tally ACCEPTED REFUSED STEPS DOC KINDS WORDS SKINDS SWORDS BYTES`.
use crate::fields::Fields;
use crate::lexes;
use crate::lexes::Memory;
use std::io;
use std::io::Write;
use tally::Tally;

pub(crate) fn tallied<W: Write>(to: &mut W, mut fields: Fields<'_>) -> io::Result<()> {
    let before = Tally {
        accepted: fields.number(),
        refused: fields.number(),
        steps: fields.number(),
    };
    let doc = fields.doc();
    let mut memory = Memory::marked();
    let mut list = memory.list.lend(fields.lengths());
    let mut stack = memory.stack.lend(fields.lengths());
    let mut room = [0; 256];
    let text = fields.bytes(&mut room);
    let counted = tally::lex_tallied(before, doc, text, &mut list, &mut stack);
    lexes::print_lexed(to, counted.lexed, &memory)?;
    let after = counted.tally;
    write!(
        to,
        " ; {} {} {}",
        after.accepted, after.refused, after.steps
    )
}
