// RCL -- A reasonable configuration language.
// Copyright 2023 Ruud van Asseldonk
// Licensed under the Apache License, Version 2.0 (the "License"): see NOTICE.
// From src/string.rs of RCL, changed: the parts stand in a lent list, and a part that is none of the text's is refused.

// The indent of a string's parts.
ghost use Rattle.std.specs.Prelude.{◌≡◌};
ghost use Rattle.rules.specs.Text.{begins};
ghost use Rattle.rules.specs.Indent.{spaces_after, indent_call};
ghost use Rattle.source.specs.Meaning.{answer_meant, count_meant};
ghost use Rattle.list.specs.Entries.{entry_meant, list_meant};
ghost use Rattle.cst.specs.Meaning.{part_meant};
ghost use Rattle.string.specs.Meaning.{part_checked};
ghost use Rattle.string.specs.Indents.{fewest_meant, line_indents, part_indents, fewer as fewer_rule};

use cst::StringPart;
use list::{Entry, List};
use rules::{Reason, kind};
use source::Refusal;

// "Refusals per part, in order: 3, then 40 for a kind outside 10 to 14 or a span outside the text."
#[tactic(auto, unfolding(crate::specs::Meaning::part_checked, rules::specs::Indent::part_verdict, rules::specs::Source::resolved, cst::specs::Meaning::if_part))]
pub fn check(text: &[u8], entry: Entry) -> Result<StringPart, Refusal>
    ensures { answer_meant part_meant result ≡ part_checked text.now (entry_meant entry) }
{
    entry.at.inside(text)?;
    StringPart::try_from(entry).map_err(|_| source::refuse(Reason::WrongForm, entry.at))
}

// Whether the bytes begin with LF.
pub fn starts_line(bytes: &[u8]) -> bool
    ensures { result ≡ begins "\n" bytes.now }
{
    bytes.first() == Some(&b'\n')
}

// How many spaces stand after the first byte.
pub fn leading_spaces(line: &[u8]) -> usize
    ensures { result ≡ spaces_after line.now }
{
    match line {
        [_, rest @ ..] => rest.iter().take_while(|b| **b == b' ').count(),
        [] => 0,
    }
}

// What a line counts for. There may be a blank line in a multiline string literal that contains no spaces even though the other lines do have spaces, to avoid trailing whitespace. In that case
// we should not set the indent to zero, even though technically it is. We also consider lines that have only spaces to be blank lines.
#[tactic(auto, unfolding(crate::specs::Indents::line_indents))]
fn line_indent(line: &[u8], next: bool) -> Option<usize>
    ensures { fewest_meant result ≡ line_indents next line.now }
{
    if !starts_line(line) {
        return None;
    }
    let n = leading_spaces(line);
    if next && n == line.len() - 1 {
        return None;
    }
    Some(n)
}

// What a part counts for.
#[tactic(auto, unfolding(crate::specs::Indents::part_indents))]
fn part_indent(text: &[u8], part: StringPart, next: bool) -> Option<usize>
    ensures { fewest_meant result ≡ part_indents text.now next (part_meant part) }
{
    match part {
        StringPart::String(span) => line_indent(source::resolve(text, span), next),
        StringPart::Escape(..) | StringPart::Hole(_) => None,
    }
}

// The fewest of what was counted and of one more.
fn fewer(spaces: Option<usize>, more: Option<usize>) -> Option<usize>
    ensures { fewest_meant result ≡ fewer_rule (fewest_meant spaces) (fewest_meant more) }
{
    match (spaces, more) {
        (Some(n), Some(m)) => Some(n.min(m)),
        _ => spaces.or(more),
    }
}

// The fewest spaces after LF over the String parts that begin with it, in a parts list with so many parts.
pub fn count_common_leading_spaces(
    text: &[u8],
    list: List<'_>,
    count: usize,
) -> Result<usize, Refusal>
    ensures { count_meant result ≡ indent_call text.now (list_meant list.entry) count }
{
    let parts = list.first(count);
    let mut n_spaces = None;
    // The lexer already breaks strings up into lines, so a part contains at most one newline. But a line may contain multiple parts, in the case of holes.
    // Kept: by places, since a part is looked at together with the one behind it.
    for i in 0..parts.places() {
        let part = check(text, parts.get(i))?;
        let has_next_line = parts.get(i + 1).kind == kind::STRING_INNER;
        let n = part_indent(text, part, has_next_line);
        n_spaces = fewer(n_spaces, n);
    }
    Ok(n_spaces.unwrap_or(0))
}
