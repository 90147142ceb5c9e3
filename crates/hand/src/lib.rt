// Handing back a value: the part of the text, or of the output, that the value call answered. Both are lent only to read.
#![tactic(auto)]

ghost use Rattle.std.specs.Prelude.{◌≡◌};
ghost use Rattle.rules.specs.Spans.{span};
ghost use Rattle.rules.specs.Answers.{verdict_on};
ghost use Rattle.rules.specs.Source.{resolved};
ghost use Rattle.rules.specs.Value.{ChecksPart, HandsBack};
ghost use Rattle.source.specs.Meaning.{verdict_meant};
ghost use Rattle.value.specs.Meaning.{held_meant};
ghost use Rattle.hand.specs.Meaning.{handed_at};

use source::{Refusal, Span};
use value::Held;

// "3, then 40 for a part outside its slice".
#[tactic(auto, unfolding(rules::specs::Source::new_span, rules::specs::Source::resolved))]
fn check_part(slice: &[u8], start: usize, end: usize) -> Result<(), Refusal>
    ensures { verdict_meant result ≡ verdict_on (resolved slice.now (span 0 start end)) }
{
    Span::new(0, start, end)?.inside(slice)
}

// Whether the part can be handed back.
#[tactic(auto, unfolding(rules::specs::Value::handed_part))]
pub fn check(text: &[u8], output: &[u8], part: Held) -> Result<(), Refusal>
    ensures { ChecksPart text.now output.now (held_meant part) (verdict_meant result) }
{
    match part {
        Held::Text(start, end) => check_part(text, start, end),
        Held::Output(start, end) => check_part(output, start, end),
    }
}

// The part, where one lifetime serves for both slices; "the text's empty start" where the check refuses.
#[tactic(auto, unfolding(rules::specs::Value::handed_part, rules::specs::Source::resolved))]
pub fn hand_in_one_lifetime<'a>(text: &'a [u8], output: &'a [u8], part: Held) -> &'a [u8]
    ensures hands_back { HandsBack text.now output.now (held_meant part) result.now }
    ensures address { result.ref_ptr ≡ handed_at text.entry output.entry (held_meant part) }
{
    if check(text, output, part).is_err() {
        return &text[..0];
    }
    match part {
        Held::Text(start, end) => &text[start..end],
        Held::Output(start, end) => &output[start..end],
    }
}

// The part: "two slices with their own lifetimes". Kept: beside the one above it, whose callers inside Rattle have one lifetime; with two, passed on as they are, the check finds no proof of the test of both.
pub fn hand<'t: 'r, 'o: 'r, 'r>(text: &'t [u8], output: &'o [u8], part: Held) -> &'r [u8]
    ensures hands_back { HandsBack text.now output.now (held_meant part) result.now }
    ensures address { result.ref_ptr ≡ handed_at text.entry output.entry (held_meant part) }
{
    let t: &'r [u8] = text;
    let o: &'r [u8] = output;
    hand_in_one_lifetime(t, o, part)
}
