// The tidied text of the input, with memory for every text of 65,536 bytes: it has at most as many lexemes and openers, and its tidied text less than two bytes for each of its own. So 30, 31 and 46
// never come.
ghost use Rattle.std.specs.Prelude.{◌≤◌, ◌<◌, take, length, OnOk, IfSome};
ghost use Rattle.std.specs.Io.KnownBytes.{Appends, Keeps};
ghost use Rattle.report.specs.Printed.{over_line, TextTidied};

use crate::answer::answer;
use crate::print;
use crate::print::Failed;
use crate::rooms::{Arrays, room};
use std::io;
use std::io::{ErrorKind, Read, Write};

// The first bytes of an output; none where it has fewer.
fn print_first<W: Write>(to: &mut W, output: &[u8], bytes: usize) -> io::Result<()>
    ensures { OnOk result (Appends (W.contents to.old) (W.contents to.new) (take bytes output.now)) }
{
    let first = output
        .get(..bytes)
        .ok_or_else(|| io::Error::from(ErrorKind::InvalidInput))?;
    to.write_all(first)?;
    to.flush()
}

// Tidies a text and prints what comes of it.
fn tidy_text<W: Write, R: Write>(text: &[u8], to: &mut W, refusals: &mut R) -> io::Result<()>
    ensures { OnOk result (TextTidied text.now (W.contents to.old) (W.contents to.new) (R.contents refusals.old) (R.contents refusals.new)) }
{
    let mut list_arrays = Arrays::<65536, 131072>::new();
    let mut stack_arrays = Arrays::<65536, 131072>::new();
    let mut output: [u8; 131072] = room();
    let mut list = list_arrays.lend();
    let mut stack = stack_arrays.lend();
    let tidied = tidy::tidy(0, text, &mut list, &mut stack, &mut output);
    match tidied.lexed.answer {
        Ok(()) => print_first(to, &output, tidied.written),
        Err(refusal) => print::refuse(refusals, refusal),
    }
}

// The tidied text of what `from`, standard input, gives and nothing after it, to `to`, standard output; or the refusal's line, to `refusals`. `errors` is standard error.
pub fn print_tidied<I: Read, W: Write, R: Write, E: Write>(
    from: &mut I,
    to: &mut W,
    refusals: &mut R,
    errors: &mut E,
) -> Result<(), Failed>
    ensures tidied { OnOk result (IfSome (I.remaining from.old) (λ text. length text ≤ 65536 →
        TextTidied text (W.contents to.old) (W.contents to.new) (R.contents refusals.old) (R.contents refusals.new))) }
    ensures over { OnOk result (IfSome (I.remaining from.old) (λ text. 65536 < length text →
        Appends (R.contents refusals.old) (R.contents refusals.new) over_line × Keeps (W.contents to.old) (W.contents to.new))) }
    ensures quiet { OnOk result (Keeps (E.contents errors.old) (E.contents errors.new)) }
{
    let answered = answer::<65537, _, _, _>(
        from,
        refusals,
        &mut |text: &[u8], refusals: &mut R| { tidy_text(text, to, refusals) },
    );
    print::told(answered, errors)
}
