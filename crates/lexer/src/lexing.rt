// RCL -- A reasonable configuration language.
// Copyright 2023 Ruud van Asseldonk
// Licensed under the Apache License, Version 2.0 (the "License"): see NOTICE.
// From src/lexer.rs of RCL, changed: lexemes and openers go to lent arrays, steps and bytes are counted, and an error is a numbered refusal.

// Lexing a text into a lent list, with a lent stack. The loop stands in a function of its own, `run_in`, which is the one place where steps are taken: the optimiser then puts the whole
// step into the loop.
ghost use Rattle.std.specs.Prelude.{◌≡◌, true, false};
ghost use Rattle.rules.specs.Kinds.{Space, is_space, is_opener, is_closer};
ghost use Rattle.rules.specs.Lent.{lent};
ghost use Rattle.rules.specs.Lexing.{Lexes};
ghost use Rattle.list.specs.Entries.{list_meant, lent_in, SameArrays};
ghost use Rattle.lexer.specs.Memory.{opener_in};
ghost use Rattle.lexer.specs.Cursor.{advance_of};
ghost use Rattle.lexer.specs.Results.{lexed_meant, lexed_at, refused_with, refused_by, CanAdvance, CanReport, CanStop, CanFinish, verdict_at};
ghost use Rattle.lexer.specs.Going.{room_of, ends_after, course_of, state_at};
ghost use Rattle.lexer.specs.Running.{CanRun, Runs, behind_of, ran_full};

use crate::{Behind, Cursor, Lexed, Mode, Ran, lent, next, pack};
use list::{Entry, List, ListMut};
use rules::{Reason, kind};
use source::Refusal;
use sublexers::{Fault, Step};
use token::{State, Token};

impl Cursor {
    // The counts after a Space.
    #[tactic(auto, unfolding(crate::specs::Cursor::advance_of))]
    fn past_space(self, end: usize) -> Cursor
        requires { CanAdvance self end }
        ensures { result ≡ advance_of self Space end }
    {
        Cursor {
            at: end,
            spaces: self.spaces + 1,
            dropped: self.dropped + (end - self.at),
            ..self
        }
    }

    // The counts after an opener.
    #[tactic(auto, using(crate::proofs::Parts::opener_listed), unfolding(crate::specs::Cursor::advance_of))]
    fn past_opener(self, kind: u8, end: usize) -> Cursor
        requires { CanAdvance self end × (is_opener kind ≡ true) }
        ensures { result ≡ advance_of self kind end }
    {
        let depth = self.depth + 1;
        Cursor {
            at: end,
            depth,
            lexemes: self.lexemes + 1,
            deepest: self.deepest.max(depth),
            ..self
        }
    }

    // The counts after a closer.
    #[tactic(auto, using(crate::proofs::Parts::closer_listed, crate::proofs::Parts::max_stays), unfolding(crate::specs::Cursor::advance_of))]
    fn past_closer(self, kind: u8, end: usize) -> Cursor
        requires { CanAdvance self end × (is_opener kind ≡ false) × (is_closer kind ≡ true) }
        ensures { result ≡ advance_of self kind end }
    {
        Cursor {
            at: end,
            depth: self.depth.saturating_sub(1),
            lexemes: self.lexemes + 1,
            ..self
        }
    }

    // The counts after any other lexeme.
    #[tactic(auto, using(crate::proofs::Parts::max_stays), unfolding(crate::specs::Cursor::advance_of))]
    fn past_other(self, kind: u8, end: usize) -> Cursor
        requires { CanAdvance self end × (is_space kind ≡ false) × (is_opener kind ≡ false) × (is_closer kind ≡ false) }
        ensures { result ≡ advance_of self kind end }
    {
        Cursor {
            at: end,
            lexemes: self.lexemes + 1,
            ..self
        }
    }
}

fn result(answer: Result<(), Refusal>, cur: Cursor) -> Lexed
    requires { CanReport cur }
    ensures { result ≡ lexed_at answer cur }
{
    let lexemes = cur.lexemes;
    Lexed {
        answer,
        lexemes,
        steps: lexemes + cur.spaces,
        kept: cur.at - cur.dropped,
        dropped: cur.dropped,
        deepest: cur.deepest,
    }
}

// The result where a step was refused.
fn stopped(doc: u32, fault: Fault, cur: Cursor, stack: List<'_>) -> Lexed
    requires { CanStop fault cur }
    ensures { lexed_meant result ≡ refused_with doc fault cur (opener_in cur.depth (list_meant stack.entry)) }
{
    let opener = lent::top(stack, cur.depth);
    result(Err(lent::refusal(doc, fault, opener)), cur)
}

// The result where the end of the text is reached.
fn report_unclosed_delimiters(doc: u32, cur: Cursor, stack: List<'_>) -> Lexed
    requires { CanFinish cur }
    ensures { lexed_meant result ≡ verdict_at doc cur (opener_in cur.depth (list_meant stack.entry)) }
{
    let at = pack(doc, cur.at, cur.at);
    let opener = lent::top(stack, cur.depth);
    result(lent::at_end(at, opener), cur)
}

// The steps end at a step that was refused.
fn refused_step(answer: Step, cur: Cursor) -> Ran
    ensures { result ≡ refused_by answer cur }
{
    Ran {
        cursor: cur,
        end: answer.map(|lexeme| lexeme.token),
    }
}

// The steps end at a lexeme for which there is no room: 30 or 31.
fn no_room(cur: Cursor, at: usize, end: usize, reason: Reason) -> Ran
    ensures { result ≡ ran_full cur at end reason }
{
    Ran {
        cursor: cur,
        end: Err(Fault {
            end,
            reason,
            start: at,
        }),
    }
}

// The whitespace at `at`, behind a lexeme: outside strings and before `stop` it is the next step, and goes with the lexeme in the same turn of the loop.
fn behind(text: &[u8], at: usize, stop: usize, mode: Mode) -> Option<Behind>
    ensures { result ≡ behind_of text.now at stop mode.stop }
{
    if (mode.stop != 0) | (stop <= at) {
        return None;
    }
    let run = scan::whitespace_behind(text, at);
    let length = run.length;
    if length == 0 {
        return None;
    }
    let end = at + length;
    if sublexers::is_blank(run.lines) {
        return Some(Behind::Blank(end));
    }
    Some(Behind::Space(end))
}

// The places of the list; where none is kept, more than any text has lexemes.
fn room(listed: bool, kinds: &[u8], words: &[u64]) -> usize
    ensures { result ≡ room_of listed (lent kinds.now words.now) }
{
    if listed {
        list::places(kinds, words)
    } else {
        usize::MAX
    }
}

// Whether the steps end after this opener: a format string's, where they are to end there.
fn ends_after(to_format: bool, kind: u8) -> bool
    ensures { result ≡ ends_after to_format kind }
{
    to_format & ((kind == kind::FORMAT_DOUBLE) | (kind == kind::FORMAT_TRIPLE))
}

// Takes steps from a cursor on, where `top` is innermost, while it stands before `stop`: one step where `stop` is the next position, all of them where it is the text's end. With `to_format` the steps
// end after a format string's opener too. Positions are the text's; spans are moved by `shift`. Where nothing is `listed` the list has no end, and its arrays no places. The mode is kept beside the
// cursor, so that the stack is read after a closer alone. Kept: what is given one by one. With a struct of doc, shift, text, stop and the two tests lexing takes 2 to 5 % more time, since the loop then does not
// know what is constant at its callers; and behind structs that are lent the four arrays are looked up again at each write.
// Kept: `shift`, `listed` and `to_format` as they are, though `run` gives the same three today: a wrong program of each is refused, and that stays. An `Option` of the list is no plainer, since 30 and 31 count the places of none as well;
// and a closure in place of `to_format` would have a contract that says again which kinds end the steps.
fn run_in(
    doc: u32,
    shift: usize,
    text: &[u8],
    from: Cursor,
    top: Option<State>,
    stop: usize,
    listed: bool,
    to_format: bool,
    kinds: &mut [u8],
    words: &mut [u64],
    skinds: &mut [u8],
    swords: &mut [u64],
) -> Ran
    requires { CanRun (course_of doc shift text.now stop listed to_format (lent kinds.old words.old) (lent skinds.old swords.old)) (state_at from Space (lent kinds.old words.old) (lent skinds.old swords.old)) top }
    ensures { Runs (course_of doc shift text.now stop listed to_format (lent kinds.old words.old) (lent skinds.old swords.old)) (state_at from Space (lent kinds.old words.old) (lent skinds.old swords.old)) (lent kinds.new words.new) (lent skinds.new swords.new) result }
{
    let places = room(listed, kinds, words);
    let stack_places = list::places(skinds, swords);
    let table = token::table();
    let mut mode = next::mode_of(top);
    let mut cur = from;
    let mut token = Token::Space;
    // Kept: the place jumps by lexemes, so no range has these places.
    while cur.at < stop {
        let at = cur.at;
        let answer = next::next(&table, text, at, mode);
        let Ok(lexeme) = answer else {
            return refused_step(answer, cur);
        };
        let end = lexeme.end;
        let kind = lexeme.kind;
        token = lexeme.token;
        if kind == kind::SPACE {
            cur = cur.past_space(end);
        } else {
            let entry = Entry {
                kind,
                at: pack(doc, shift + at, shift + end),
            };
            let place = cur.lexemes;
            if token::opens(kind) {
                let depth = cur.depth;
                if stack_places <= depth {
                    return no_room(cur, at, end, Reason::StackFull);
                }
                if places <= place {
                    return no_room(cur, at, end, Reason::ListFull);
                }
                list::put(kinds, words, place, entry);
                list::put(skinds, swords, depth, entry);
                cur = cur.past_opener(kind, end);
                mode = next::mode_of(token::opened_by(token));
                if ends_after(to_format, kind) {
                    return Ran {
                        cursor: cur,
                        end: Ok(token),
                    };
                }
            } else {
                if places <= place {
                    return no_room(cur, at, end, Reason::ListFull);
                }
                list::put(kinds, words, place, entry);
                if token::closes(kind) {
                    cur = cur.past_closer(kind, end);
                    let depth = cur.depth;
                    mode = next::mode_of(lent::top_state(skinds, depth));
                } else {
                    cur = cur.past_other(kind, end);
                    let space = behind(text, end, stop, mode);
                    match space {
                        None => {}
                        Some(Behind::Space(after)) => {
                            cur = cur.past_space(after);
                            token = Token::Space;
                        }
                        Some(Behind::Blank(after)) => {
                            let blank = Entry {
                                kind: kind::BLANK,
                                at: pack(doc, shift + end, shift + after),
                            };
                            let next = cur.lexemes;
                            if places <= next {
                                return no_room(cur, end, after, Reason::ListFull);
                            }
                            list::put(kinds, words, next, blank);
                            cur = cur.past_other(kind::BLANK, after);
                            token = Token::Blank;
                        }
                    }
                }
            }
        }
    }
    Ran {
        cursor: cur,
        end: Ok(token),
    }
}

// The same in a lent list and a lent stack, for a text that stands alone, to `stop`. Always inlined: the loop takes 6 to 9 % fewer instructions, and up to 4 % less time.
#[inline(always)]
pub(crate) fn run(
    doc: u32,
    text: &[u8],
    from: Cursor,
    top: Option<State>,
    stop: usize,
    list: &mut ListMut<'_>,
    stack: &mut ListMut<'_>,
) -> Ran
    requires { CanRun (course_of doc 0 text.now stop true false (lent_in list.old) (lent_in stack.old)) (state_at from Space (lent_in list.old) (lent_in stack.old)) top }
    ensures runs { Runs (course_of doc 0 text.now stop true false (lent_in list.old) (lent_in stack.old)) (state_at from Space (lent_in list.old) (lent_in stack.old)) (lent_in list.new) (lent_in stack.new) result }
    ensures same_list { SameArrays list.old list.new }
    ensures same_stack { SameArrays stack.old stack.new }
{
    run_in(
        doc,
        0,
        text,
        from,
        top,
        stop,
        true,
        false,
        list.kinds,
        list.words,
        stack.kinds,
        stack.words,
    )
}

// Lex an input document into tokens, which go to a list. What is open goes to a stack.
pub fn lex(doc: u32, text: &[u8], list: &mut ListMut<'_>, stack: &mut ListMut<'_>) -> Lexed
    ensures lexes { Lexes doc text.now (lent_in list.old) (lent_in stack.old) (lexed_meant result) (lent_in list.new) (lent_in stack.new) }
    ensures same_list { SameArrays list.old list.new }
    ensures same_stack { SameArrays stack.old stack.new }
{
    let start = Cursor::default();
    if rules::LIMIT < text.len() {
        let long = Fault {
            end: 0,
            reason: Reason::TooLong,
            start: 0,
        };
        return stopped(doc, long, start, stack.list());
    }
    if let Err(error) = utf8::check(text) {
        let at = error.valid_up_to;
        let bad = Fault {
            end: at,
            reason: Reason::NotUtf8,
            start: at,
        };
        return stopped(doc, bad, start, stack.list());
    }
    let ran = run(doc, text, start, None, text.len(), list, stack);
    match ran.end {
        Ok(_) => report_unclosed_delimiters(doc, ran.cursor, stack.list()),
        Err(fault) => stopped(doc, fault, ran.cursor, stack.list()),
    }
}
