// The walker: `walk DOC SKINDS SWORDS STEPS BYTES`.
use crate::arrays::Arrays;
use crate::fields::Fields;
use crate::shown;
use crate::shown::{Refused, Words};
use list::ListMut;
use std::io;
use std::io::Write;
use walker::{Walked, Walker};

// What a step answers, and the position and depth after it.
fn print_step<W: Write>(to: &mut W, walked: Walked<'_>) -> io::Result<()> {
    match walked.answer {
        Ok(Some(lexeme)) => write!(to, "lexeme {} {}", u8::from(lexeme.token), Words(lexeme.at))?,
        Ok(None) => to.write_all(b"ended")?,
        Err(refusal) => write!(to, "{}", Refused(refusal))?,
    }
    write!(to, " {} {}", walked.next.position, walked.next.depth)
}

// So many steps of a walker, with a stack.
fn walk_steps<W: Write>(
    to: &mut W,
    mut walker: Walker<'_>,
    stack: &mut ListMut<'_>,
    steps: usize,
) -> io::Result<()> {
    for i in 0..steps {
        if 0 < i {
            to.write_all(b" ; ")?;
        }
        let walked = walker.step(stack);
        print_step(to, walked)?;
        walker = walked.next;
    }
    Ok(())
}

pub(crate) fn walk<W: Write>(to: &mut W, mut fields: Fields<'_>) -> io::Result<()> {
    let doc = fields.doc();
    let mut arrays: Arrays<72, 144> = Arrays::marked();
    let mut stack = arrays.lend(fields.lengths());
    let steps = fields.size();
    let mut room = [0; 256];
    let text = fields.bytes(&mut room);
    walk_steps(to, Walker::open(text, doc), &mut stack, steps)?;
    // The stack after the steps: its openers, and how far its arrays were written.
    let ends = arrays.ends();
    to.write_all(b" ;")?;
    shown::print_list(to, arrays.list(), ends.kinds)?;
    write!(to, " ; {} {}", ends.kinds, ends.words)
}
