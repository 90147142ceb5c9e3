// The value call.
ghost use Rattle.std.specs.Prelude.{◌≡◌, cond};
ghost use Rattle.rules.specs.Kinds.{is_triple};
ghost use Rattle.rules.specs.Lent.{contents};
ghost use Rattle.rules.specs.Value.{Values};
ghost use Rattle.list.specs.Entries.{list_meant, lent_meant, SameArrays};
ghost use Rattle.output.specs.Places.{SameBytes};
ghost use Rattle.value.specs.Meaning.{held_answer};
ghost use Rattle.value.specs.Pieces.{WrittenValue, ListedValue};

use crate::pieces::Pieces;
use crate::{Held, Valued, pieces};
use list::{List, ListMut};
use output::Output;
use source::Refusal;

// "in triple quotes the indent is taken off"
fn indent_taken(quote: u8, spaces: usize) -> usize
    ensures { result ≡ cond (is_triple quote) spaces 0 }
{
    if token::is_triple(quote) { spaces } else { 0 }
}

// The value of parts that nothing is said against: "handed back as that part of the text; any other as the written part of the output".
#[tactic(auto, using(crate::proofs::Unbroken::handed_back))]
fn write_value(pieces: Pieces<'_>, output: &mut Output<'_>) -> Result<Held, Refusal>
    ensures written { WrittenValue pieces.entry.text.now pieces.entry.indent (contents (list_meant pieces.entry.parts)) output.old.at output.old.bytes.now (held_answer result) output.new.bytes.now }
    ensures same { SameBytes output.old output.new }
{
    if pieces.is_unbroken() {
        let span = pieces.parts.get(0).at;
        return Ok(Held::Text(span.start(), span.end()));
    }
    let start = output.at;
    pieces.write(output)?;
    Ok(Held::Output(start, output.at))
}

// The value of listed parts: the indent, then the escapes, "each over the whole string before a byte is written, then 46".
#[tactic(auto, using(crate::proofs::Call::listed))]
fn value_of(
    text: &[u8],
    quote: u8,
    parts: List<'_>,
    output: &mut Output<'_>,
) -> Result<Held, Refusal>
    ensures listed { ListedValue text.now quote (contents (list_meant parts.entry)) output.old.at output.old.bytes.now (held_answer result) output.new.bytes.now }
    ensures same { SameBytes output.old output.new }
{
    let spaces = string::count_common_leading_spaces(text, parts, parts.places())?;
    pieces::check_escapes(text, parts)?;
    let indent = indent_taken(quote, spaces);
    let pieces = Pieces {
        text,
        indent,
        parts,
    };
    write_value(pieces, output)
}

// The value of the string whose opener stands at a place of a list: "Refusals as of parts, indent, escapes, each over the whole string before a byte is written, then 46".
pub fn value(
    text: &[u8],
    list: List<'_>,
    count: usize,
    place: usize,
    parts: &mut ListMut<'_>,
    output: &mut [u8],
    position: usize,
) -> Valued
    ensures values { Values text.now (list_meant list.entry) count place (lent_meant parts.old) output.old position (held_answer result.answer) result.parts (lent_meant parts.new) output.new }
    ensures same { SameArrays parts.old parts.new }
{
    let parted = cst::parts(list, count, place, parts);
    let answer = match parted.answer {
        Ok(_) => {
            let quote = list.get(place).kind;
            let listed = parts.list().first(parted.parts);
            let mut output = Output {
                bytes: output,
                at: position,
            };
            value_of(text, quote, listed, &mut output)
        }
        Err(refusal) => Err(refusal),
    };
    Valued {
        answer,
        parts: parted.parts,
    }
}
