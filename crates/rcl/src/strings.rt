// Identifiers, keywords, escapes, indent, parts and values of strings.
ghost use Rattle.std.specs.Prelude.{◌≡◌};
ghost use Rattle.rules.specs.Lent.{arrays};
ghost use Rattle.rules.specs.Names.{is_identifier, is_keyword};
ghost use Rattle.rules.specs.Spans.{span_of};
ghost use Rattle.rules.specs.Escapes.{escape_scalar, Unescapes};
ghost use Rattle.rules.specs.Parts.{ListsParts};
ghost use Rattle.rules.specs.Indent.{indent_call};
ghost use Rattle.rules.specs.Value.{Values};
ghost use Rattle.words.specs.Strings.{answer_in, canonical_answer, closer_in, canonical_parted, value_in, canonical_valued};

use list::{List, ListMut};
use output::Output;
use source::Span;
use words::{AnswerWords, PartedWords, ValuedWords};

// Whether bytes are an identifier.
#[unsafe(no_mangle)]
pub extern "C" fn rcl_is_identifier(bytes: &[u8]) -> bool
    ensures { result ≡ is_identifier bytes.now }
{
    string::is_identifier(bytes)
}

// Whether bytes are a keyword.
#[unsafe(no_mangle)]
pub extern "C" fn rcl_is_keyword(bytes: &[u8]) -> bool
    ensures { result ≡ is_keyword bytes.now }
{
    sublexers::is_keyword(bytes)
}

// The scalar value of an escape sequence.
#[tactic(auto, using(crate::proofs::Noteless::scalar_noteless))]
#[unsafe(no_mangle)]
pub extern "C" fn rcl_scalar_value(text: &[u8], low: u64, high: u64, kind: u8) -> AnswerWords
    ensures meaning { answer_in result ≡ escape_scalar text.now (span_of low high) kind }
    ensures canonical { result ≡ canonical_answer result }
{
    let span = Span { low, high };
    AnswerWords::from(string::scalar_value(text, span, kind).map(u64::from))
}

// Writes it to an output, whole or not.
#[tactic(auto, using(crate::proofs::Noteless::unescape_noteless))]
#[unsafe(no_mangle)]
pub extern "C" fn rcl_unescape_into(
    text: &[u8],
    low: u64,
    high: u64,
    kind: u8,
    output: &mut [u8],
    position: usize,
) -> AnswerWords
    ensures unescapes { Unescapes text.now (span_of low high) kind output.old position (answer_in result) output.new }
    ensures canonical { result ≡ canonical_answer result }
{
    let span = Span { low, high };
    let mut output = Output {
        bytes: output,
        at: position,
    };
    let answer = string::unescape_into(text, span, kind, &mut output);
    let written = output.at - position;
    AnswerWords::from(answer.map(|()| written as u64))
}

// The indent of a parts list.
#[tactic(auto, using(crate::proofs::Noteless::indent_noteless))]
#[unsafe(no_mangle)]
pub extern "C" fn rcl_count_common_leading_spaces(
    text: &[u8],
    kinds: &[u8],
    words: &[u64],
    count: usize,
) -> AnswerWords
    ensures meaning { answer_in result ≡ indent_call text.now (arrays kinds.now words.now) count }
    ensures canonical { result ≡ canonical_answer result }
{
    let spaces = string::count_common_leading_spaces(text, List { kinds, words }, count);
    AnswerWords::from(spaces.map(|spaces| spaces as u64))
}

// Lists the parts of a string.
#[tactic(auto, using(crate::proofs::Noteless::parts_noteless))]
#[unsafe(no_mangle)]
pub extern "C" fn rcl_parts(
    kinds: &[u8],
    words: &[u64],
    count: usize,
    place: usize,
    pkinds: &mut [u8],
    pwords: &mut [u64],
) -> PartedWords
    ensures lists_parts { ListsParts (arrays kinds.now words.now) count place (arrays pkinds.old pwords.old) (closer_in result) result.parts (arrays pkinds.new pwords.new) }
    ensures canonical { result ≡ canonical_parted result }
{
    let mut parts = ListMut {
        kinds: pkinds,
        words: pwords,
    };
    PartedWords::from(cst::parts(List { kinds, words }, count, place, &mut parts))
}

// The value of a string.
#[tactic(auto, using(crate::proofs::Noteless::value_noteless))]
#[unsafe(no_mangle)]
pub extern "C" fn rcl_value(
    text: &[u8],
    kinds: &[u8],
    words: &[u64],
    count: usize,
    place: usize,
    pkinds: &mut [u8],
    pwords: &mut [u64],
    output: &mut [u8],
    position: usize,
) -> ValuedWords
    ensures values { Values text.now (arrays kinds.now words.now) count place (arrays pkinds.old pwords.old) output.old position (value_in result) result.parts (arrays pkinds.new pwords.new) output.new }
    ensures canonical { result ≡ canonical_valued result }
{
    let mut parts = ListMut {
        kinds: pkinds,
        words: pwords,
    };
    ValuedWords::from(value::value(
        text,
        List { kinds, words },
        count,
        place,
        &mut parts,
        output,
        position,
    ))
}
