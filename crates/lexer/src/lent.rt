// RCL -- A reasonable configuration language.
// Copyright 2023 Ruud van Asseldonk
// Licensed under the Apache License, Version 2.0 (the "License"): see NOTICE.
// From src/lexer.rs of RCL, changed: the state stack stands in lent arrays, and the list of lexemes too.

// The innermost opener, as the lent stack has it, and what a refusal says of it.
ghost use Rattle.std.specs.Prelude.{◌≡◌, ◌<◌, ◌≤◌, ◌^◌, length};
ghost use Rattle.rules.specs.Reasons.{number_of};
ghost use Rattle.rules.specs.Lexing.{note_of as note_rule};
ghost use Rattle.token.specs.Codes.{state_meant, if_opener};
ghost use Rattle.source.specs.Meaning.{span_meant, note_meant, refusal_meant, verdict_meant};
ghost use Rattle.list.specs.Entries.{list_meant};
ghost use Rattle.lexer.specs.Memory.{TopState, opener_in, opener_meant, code_in, refusal_by, end_by};

use crate::pack;
use list::{Entry, List};
use rules::Reason;
use source::{Refusal, Span};
use sublexers::Fault;
use token::State;

// What the innermost opener has opened.
pub(crate) fn top_state(kinds: &[u8], depth: usize) -> Option<State>
    requires { depth ≤ length kinds.now }
    ensures { TopState depth kinds.now result }
{
    if depth == 0 {
        return None;
    }
    token::state_of(kinds[depth - 1])
}

// The innermost opener, where something is open. Kept: the depth beside the stack here and above, since it stands in the cursor, with the counts that change with it.
pub(crate) fn top(stack: List<'_>, depth: usize) -> Option<Entry>
    ensures { opener_meant result ≡ opener_in depth (list_meant stack.entry) }
{
    if depth == 0 {
        return None;
    }
    Some(stack.get(depth - 1))
}

// What an opener has opened.
#[tactic(auto, unfolding(token::specs::Codes::state_meant, token::specs::Codes::if_opener, rules::specs::Kinds::is_opener))]
pub(crate) fn opened(opener: Option<Entry>) -> Option<State>
    ensures { state_meant result ≡ if_opener (code_in (opener_meant opener)) }
{
    token::state_of(opener?.kind)
}

// Refusals 24 to 28 note the innermost opener.
fn note_of(reason: Reason, opener: Option<Entry>) -> Option<Span>
    ensures { note_meant result ≡ note_rule (number_of reason) (opener_meant opener) }
{
    match u8::from(reason) {
        24..=28 => Some(opener?.at),
        _ => None,
    }
}

// What refuses a step.
pub(crate) fn refusal(doc: u32, fault: Fault, opener: Option<Entry>) -> Refusal
    requires { (fault.start < 2 ^ 48) × (fault.end < 2 ^ 48) }
    ensures { refusal_meant result ≡ refusal_by doc fault (opener_meant opener) }
{
    Refusal {
        reason: fault.reason,
        at: pack(doc, fault.start, fault.end),
        note: note_of(fault.reason, opener),
    }
}

// 25 to 28 at the text's end, where something is open.
pub(crate) fn at_end(at: Span, opener: Option<Entry>) -> Result<(), Refusal>
    ensures { verdict_meant result ≡ end_by (span_meant at) (opener_meant opener) }
{
    match opener {
        Some(opener) => Err(Refusal {
            reason: token::unclosed(opener.kind),
            at,
            note: Some(opener.at),
        }),
        None => Ok(()),
    }
}
