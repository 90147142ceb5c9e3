// The bytes that a part of a string stands for, one by one: how many there are, and each of them. No output is needed.
ghost use Rattle.std.specs.Prelude.{◌≡◌, length, get_or};
ghost use Rattle.rules.specs.Spans.{bytes_at};
ghost use Rattle.rules.specs.Escapes.{escape_scalar, escape_bytes};
ghost use Rattle.rules.specs.Value.{dedented, part_bytes};
ghost use Rattle.source.specs.Meaning.{span_meant};
ghost use Rattle.token.specs.Codes.{escape_code};
ghost use Rattle.cst.specs.Meaning.{part_meant};
ghost use Rattle.string.specs.Indents.{taken_off};
ghost use Rattle.string.specs.Meaning.{bytes_or_none};

use crate::{leading, unescape};
use cst::StringPart;
use source::Span;
use token::Escape;
use utf8::Encoded;

// How many spaces the indent takes off a line: "after each leading LF, as far as spaces go".
#[tactic(auto, unfolding(crate::specs::Indents::taken_off))]
pub fn taken_off(line: &[u8], indent: usize) -> usize
    ensures { result ≡ taken_off indent line.now }
{
    if !leading::starts_line(line) {
        return 0;
    }
    indent.min(leading::leading_spaces(line))
}

// How many bytes are left of a line.
#[tactic(auto, using(crate::proofs::Dedenting::within, crate::proofs::Dedenting::dedented_length))]
pub fn line_length(line: &[u8], indent: usize) -> usize
    ensures { result ≡ length (dedented indent line.now) }
{
    line.len() - taken_off(line, indent)
}

// The byte at `i` of what is left of a line, and 0 past the end.
#[tactic(auto, using(crate::proofs::Dedenting::within, crate::proofs::Dedenting::dedented_first, crate::proofs::Dedenting::dedented_at, crate::proofs::Dedenting::dedented_past))]
pub fn line_byte(line: &[u8], indent: usize, i: usize) -> u8
    ensures { result ≡ get_or (dedented indent line.now) i 0 }
{
    if i == 0 {
        return basics::byte_at(line, 0);
    }
    if line.len() <= i {
        return 0;
    }
    let n = taken_off(line, indent);
    basics::byte_at(line, n + i)
}

// The bytes of a text that a span names, as far as the text goes.
fn bytes_at(text: &[u8], span: Span) -> &[u8]
    ensures { result.now ≡ bytes_at text.now (span_meant span) }
{
    let end = span.end().min(text.len());
    let start = span.start().min(end);
    &text[start..end]
}

// The bytes of an escape sequence that is not refused.
fn escape_bytes(text: &[u8], span: Span, escape: Escape) -> Option<Encoded>
    ensures { bytes_or_none result ≡ escape_bytes (escape_scalar text.now (span_meant span) (escape_code escape)) }
{
    let u = unescape::scalar_value(text, span, u8::from(escape)).ok()?;
    Some(utf8::encode(u))
}

// How many bytes a part stands for: none for a hole, or for an escape sequence that is refused.
#[tactic(auto, unfolding(rules::specs::Value::part_bytes, rules::specs::Escapes::escape_scalar, rules::specs::Escapes::scalar_of))]
pub fn part_length(text: &[u8], indent: usize, part: StringPart) -> usize
    ensures { result ≡ length (part_bytes text.now indent (part_meant part)) }
{
    match part {
        StringPart::String(span) => line_length(bytes_at(text, span), indent),
        StringPart::Escape(span, escape) => {
            escape_bytes(text, span, escape).map_or(0, |bytes| bytes.as_bytes().len())
        }
        StringPart::Hole(_) => 0,
    }
}

// The byte at `i` of them, and 0 past the end.
#[tactic(auto, unfolding(rules::specs::Value::part_bytes, rules::specs::Escapes::escape_scalar, rules::specs::Escapes::scalar_of))]
pub fn part_byte(text: &[u8], indent: usize, part: StringPart, i: usize) -> u8
    ensures { result ≡ get_or (part_bytes text.now indent (part_meant part)) i 0 }
{
    match part {
        StringPart::String(span) => line_byte(bytes_at(text, span), indent, i),
        StringPart::Escape(span, escape) => escape_bytes(text, span, escape).map_or(
            0,
            |bytes| basics::byte_at(bytes.as_bytes(), i),
        ),
        StringPart::Hole(_) => 0,
    }
}
