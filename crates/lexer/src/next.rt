// RCL -- A reasonable configuration language.
// Copyright 2023 Ruud van Asseldonk
// Licensed under the Apache License, Version 2.0 (the "License"): see NOTICE.
// From src/lexer.rs of RCL, changed: the class of the first byte decides, and what the innermost opener makes of a step is passed in.

// One step: in a string, or outside by the class of the first byte.
ghost use Rattle.std.specs.Prelude.{◌≡◌, cond, drop};
ghost use Rattle.rules.specs.Kinds.{is_quote_open, is_triple};
ghost use Rattle.rules.specs.Step.{outside, step};
ghost use Rattle.token.specs.Table.{IsTable};
ghost use Rattle.sublexers.specs.Outcome.{outcome, step_meant, innermost_of};
ghost use Rattle.sublexers.specs.Quotes.{stop_of};
ghost use Rattle.lexer.specs.Mode.{Here, mode_of};

use crate::Mode;
use rules::{Reason, class};
use scan::{Control, Over127};
use sublexers::Step;
use token::State;

// Outside strings, by the class of the first byte.
fn next_normal(table: &[u8; 256], text: &[u8], at: usize, top: Option<State>) -> Step
    requires { IsTable table.now × Here at text.now }
    ensures { step_meant result ≡ outcome at (outside (innermost_of top) (drop at text.now)) }
{
    let first = text[at];
    let k = token::class(table, first);
    match k {
        class::WHITESPACE => sublexers::lex_in_space(text, at),
        class::CONTROL => sublexers::refused_at(
            Reason::ControlByte,
            at,
            scan::run_end(text, at, Control),
        ),
        class::DIGIT => sublexers::lex_in_number(text, at),
        class::LETTER => sublexers::lex_in_letter(table, first, text, at),
        class::PUNCTUATION => sublexers::lex_in_punct(first, text, at, top),
        _ => sublexers::refused_at(Reason::NotAscii, at, scan::run_end(text, at, Over127)),
    }
}

// The byte that, beside a quote, ends an inner part: the brace in a format string, a quote in a plain one; 0 outside strings.
#[tactic(auto, using(crate::proofs::Steps::plain_stop, crate::proofs::Steps::format_stop), unfolding(token::specs::Codes::state_code))]
fn stop_of(top: Option<State>) -> u8
    ensures { result ≡ cond (is_quote_open (innermost_of top)) (stop_of (innermost_of top)) 0 }
{
    match top {
        Some(State::String(_)) => b'"',
        Some(State::Format(_)) => b'{',
        _ => 0,
    }
}

fn triple_of(top: Option<State>) -> bool
    ensures { result ≡ is_triple (innermost_of top) }
{
    match top {
        Some(state) => state.is_triple(),
        None => false,
    }
}

// The mode of an innermost opener: it changes only where something opens or closes, so `run_in` keeps it.
pub(crate) fn mode_of(top: Option<State>) -> Mode
    ensures { result ≡ mode_of top }
{
    Mode {
        stop: stop_of(top),
        triple: triple_of(top),
        top,
    }
}

// Lex one token. The text must not have ended.
pub(crate) fn next(table: &[u8; 256], text: &[u8], at: usize, mode: Mode) -> Step
    requires { IsTable table.now × Here at text.now × (mode ≡ mode_of mode.top) }
    ensures { step_meant result ≡ outcome at (step (innermost_of mode.top) (drop at text.now)) }
{
    let stop = mode.stop;
    if stop == 0 {
        let top = mode.top;
        return next_normal(table, text, at, top);
    }
    sublexers::lex_in_string(text[at], text, at, stop, mode.triple)
}
