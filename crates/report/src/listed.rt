// The listing of a text: its sizes, the kind codes of its lexemes, and their spans.
ghost use Rattle.std.specs.Prelude.{◌++◌, ℕ, List, OnOk, IfSome, codes};
ghost use Rattle.std.specs.Io.KnownBytes.{Appends, Keeps};
ghost use Rattle.rules.specs.Lent.{Lexeme, contents};
ghost use Rattle.list.specs.Entries.{entry_meant, list_meant};
ghost use Rattle.lexer.specs.Results.{lexed_meant};
ghost use Rattle.report.specs.Printed.{sizes_line, separator, kind_said, span_said, entries_of, listed_lines, text_listed, listing_of};

use crate::answer::answer;
use crate::print;
use crate::print::Failed;
use crate::rooms::Arrays;
use lexer::Lexed;
use list::{Entry, List};
use std::io;
use std::io::{Read, Write};

// "Sizes first: bytes, lexemes, deepest, steps, dropped bytes".
fn print_sizes<W: Write>(to: &mut W, bytes: usize, lexed: Lexed) -> io::Result<()>
    ensures { OnOk result (Appends (W.contents to.old) (W.contents to.new) (sizes_line bytes (lexed_meant lexed))) }
{
    writeln!(
        to,
        "{bytes} {} {} {} {}",
        lexed.lexemes, lexed.deepest, lexed.steps, lexed.dropped
    )
}

// A space before every entry of a line but the first.
fn separate<W: Write>(to: &mut W, place: usize) -> io::Result<()>
    ensures { OnOk result (Appends (W.contents to.old) (W.contents to.new) (separator place)) }
{
    if place == 0 {
        return Ok(());
    }
    to.write_all(b" ")
}

// What a line of the listing says of each lexeme. Kept: a trait and no closure, since the contract of a line names what is said of a lexeme (`said`).
trait Column {
    ghost said: { Lexeme → List ℕ };

    fn print<W: Write>(&self, to: &mut W, entry: Entry) -> io::Result<()>
        ensures { OnOk result (Appends (W.contents to.old) (W.contents to.new) (said (entry_meant entry))) };
}

struct Kinds;

impl Column for Kinds {
    ghost said = { kind_said };

    fn print<W: Write>(&self, to: &mut W, entry: Entry) -> io::Result<()> {
        write!(to, "{}", entry.kind)
    }
}

struct Spans;

impl Column for Spans {
    ghost said = { span_said };

    fn print<W: Write>(&self, to: &mut W, entry: Entry) -> io::Result<()> {
        write!(to, "{}-{}", entry.at.start(), entry.at.end())
    }
}

// What a column says of the first lexemes of a list, on one line.
#[tactic(auto, using(crate::proofs::Lines::entries_more))]
fn print_line<W: Write, C: Column>(
    to: &mut W,
    column: &C,
    list: List<'_>,
    lexemes: usize,
) -> io::Result<()>
    ensures { OnOk result (Appends (W.contents to.old) (W.contents to.new) (entries_of C.said (contents (list_meant list.entry)) lexemes ++ codes "\n")) }
{
    // Kept: by places, since what stands before an entry is told by its place.
    for i in 0..lexemes {
        separate(to, i)?;
        column.print(to, list.get(i))?;
    }
    print::end_line(to)
}

// The sizes, the kind codes and the spans of a list that was made of so many bytes.
fn print_list<W: Write>(to: &mut W, bytes: usize, lexed: Lexed, list: List<'_>) -> io::Result<()>
    ensures { OnOk result (Appends (W.contents to.old) (W.contents to.new) (listed_lines bytes (lexed_meant lexed) (contents (list_meant list.entry)))) }
{
    print_sizes(to, bytes, lexed)?;
    print_line(to, &Kinds, list, lexed.lexemes)?;
    print_line(to, &Spans, list, lexed.lexemes)?;
    to.flush()
}

// Lexes a text into a list of 1,024 places with a stack of 64, and prints what comes of it.
fn list_text<W: Write>(text: &[u8], to: &mut W) -> io::Result<()>
    ensures { OnOk result (Appends (W.contents to.old) (W.contents to.new) (text_listed text.now)) }
{
    let mut list_arrays = Arrays::<1024, 2048>::new();
    let mut stack_arrays = Arrays::<64, 128>::new();
    let mut list = list_arrays.lend();
    let mut stack = stack_arrays.lend();
    let lexed = lexer::lex(0, text, &mut list, &mut stack);
    match lexed.answer {
        Ok(()) => print_list(to, text.len(), lexed, list.list()),
        Err(refusal) => print::refuse(to, refusal),
    }
}

// "A listing program reads standard input (over 4,096 bytes: refusal 2; list 1,024 places, stack 64)." `from` is standard input, `to` standard output and `errors` standard error.
#[tactic(auto, using(crate::proofs::Lines::ended_listed))]
pub fn print_listing<R: Read, W: Write, E: Write>(
    from: &mut R,
    to: &mut W,
    errors: &mut E,
) -> Result<(), Failed>
    ensures listing { OnOk result (IfSome (R.remaining from.old) (λ text. Appends (W.contents to.old) (W.contents to.new) (listing_of text))) }
    ensures quiet { OnOk result (Keeps (E.contents errors.old) (E.contents errors.new)) }
{
    let answered = answer::<4097, _, _, _>(
        from,
        to,
        &mut |text: &[u8], to: &mut W| { list_text(text, to) },
    );
    print::told(answered, errors)
}
