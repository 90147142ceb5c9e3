// One piece of a value.
ghost use Rattle.std.specs.Prelude.{◌≡◌};
ghost use Rattle.rules.specs.Kinds.{StringInner};
ghost use Rattle.rules.specs.Lent.{lexeme};
ghost use Rattle.rules.specs.Value.{dedented, escape_verdict};
ghost use Rattle.source.specs.Meaning.{span_meant, verdict_meant};
ghost use Rattle.token.specs.Codes.{escape_code};
ghost use Rattle.list.specs.Entries.{entry_meant};
ghost use Rattle.output.specs.Places.{Put, SameBytes};
ghost use Rattle.cst.specs.Meaning.{part_meant};
ghost use Rattle.value.specs.Meaning.{reached};
ghost use Rattle.value.specs.Pieces.{PartAccepted, PartWritten};

use cst::StringPart;
use list::Entry;
use output::{Full, Output};
use rules::Reason;
use source::{Refusal, Span};
use token::Escape;

// Writes the bytes of a String part, whole or not.
#[tactic(auto, using(crate::proofs::OnePart::dedents))]
fn put_string(line: &[u8], indent: usize, output: &mut Output<'_>) -> Result<(), Full>
    ensures { Put (dedented indent line.now) output.old result output.new }
{
    let n = string::taken_off(line, indent);
    if n == 0 {
        return output.put(line);
    }
    output.put_two(&line[..1], &line[n + 1..])
}

// The refusal of a part that is an escape.
fn check_part(text: &[u8], part: StringPart) -> Result<(), Refusal>
    ensures { verdict_meant result ≡ escape_verdict text.now (part_meant part) }
{
    if let StringPart::Escape(span, escape) = part {
        string::scalar_value(text, span, u8::from(escape))?;
    }
    Ok(())
}

// The same of an entry of a list.
#[tactic(auto, unfolding(cst::specs::Meaning::if_part))]
pub(crate) fn check_escape(text: &[u8], entry: Entry) -> Result<(), Refusal>
    ensures { verdict_meant result ≡ escape_verdict text.now (entry_meant entry) }
{
    match StringPart::try_from(entry) {
        Ok(part) => check_part(text, part),
        Err(_) => Ok(()),
    }
}

// Writes a String part.
fn write_string(
    text: &[u8],
    indent: usize,
    span: Span,
    output: &mut Output<'_>,
) -> Result<(), Refusal>
    requires { PartAccepted text.now (lexeme StringInner (span_meant span)) }
    ensures written { PartWritten text.now indent (lexeme StringInner (span_meant span)) output.old.at output.old.bytes.now (reached result output.new) output.new.bytes.now }
    ensures same { SameBytes output.old output.new }
{
    let line = source::resolve(text, span);
    // Kept: a match; behind `map_err` the check finds no proof by the laws of one part.
    match put_string(line, indent, output) {
        Ok(()) => Ok(()),
        Err(Full) => Err(source::refuse(Reason::OutputFull, span)),
    }
}

// Writes an Escape part.
fn write_escape(
    text: &[u8],
    indent: usize,
    span: Span,
    escape: Escape,
    output: &mut Output<'_>,
) -> Result<(), Refusal>
    requires { PartAccepted text.now (lexeme (escape_code escape) (span_meant span)) }
    ensures written { PartWritten text.now indent (lexeme (escape_code escape) (span_meant span)) output.old.at output.old.bytes.now (reached result output.new) output.new.bytes.now }
    ensures same { SameBytes output.old output.new }
{
    string::unescape_into(text, span, u8::from(escape), output)
}

// Writes a part. "Holes give no byte."
pub(crate) fn write_part(
    text: &[u8],
    indent: usize,
    part: StringPart,
    output: &mut Output<'_>,
) -> Result<(), Refusal>
    requires { PartAccepted text.now (part_meant part) }
    ensures written { PartWritten text.now indent (part_meant part) output.old.at output.old.bytes.now (reached result output.new) output.new.bytes.now }
    ensures same { SameBytes output.old output.new }
{
    match part {
        StringPart::String(span) => write_string(text, indent, span, output),
        StringPart::Escape(span, escape) => { write_escape(text, indent, span, escape, output) }
        StringPart::Hole(_) => Ok(()),
    }
}
