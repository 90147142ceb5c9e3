// RCL -- A reasonable configuration language.
// Copyright 2023 Ruud van Asseldonk
// Licensed under the Apache License, Version 2.0 (the "License"): see NOTICE.
// From src/lexer.rs of RCL, changed: of `take_while` and the tests that it is given; long runs in blocks.

#![tactic(auto)]

// Runs of bytes: where the bytes that pass a test end. A position past the text's end is its own end.
ghost use Rattle.std.specs.Prelude.{◌≡◌, ℕ, Bool, ◌||◌, ◌+◌, ◌-◌, ◌<◌, ◌≤◌, min, length, drop};
ghost use Rattle.rules.specs.Text.{run};
ghost use Rattle.rules.specs.Bytes.{is_digit, is_hex_digit, is_binary_digit, is_control, is_over127, is_not_lf, is_whitespace};
ghost use Rattle.rules.specs.Utf8.{is_tail};
ghost use Rattle.rules.specs.Step.{is_underscore};
ghost use Rattle.rules.specs.Measuring.{measured};
ghost use Rattle.scan.specs.Classes.{is_inner_for};
ghost use Rattle.scan.specs.Measuring.{measured_meant, LooksAs, CanGrow, further_of, goes_on, Passing};

// A test on bytes. Kept: a trait and no closure: contracts name which bytes pass (`passes`), and a closure would need that beside it in each of them.
pub trait ByteClass: Copy {
    // Which bytes pass it.
    ghost passes: { Self → ℕ → Bool };

    fn has(self, b: u8) -> bool
        ensures { result ≡ passes self b };
}

#[derive(Clone, Copy)]
pub struct Hex;

impl ByteClass for Hex {
    ghost passes = { λ _. is_hex_digit };

    fn has(self, b: u8) -> bool {
        is_hex_digit(b)
    }
}

#[derive(Clone, Copy)]
pub struct Binary;

#[tactic(auto, unfolding(rules::specs::Bytes::is_binary_digit))]
impl ByteClass for Binary {
    ghost passes = { λ _. is_binary_digit };

    fn has(self, b: u8) -> bool {
        matches!(b, b'0'..=b'1')
    }
}

#[derive(Clone, Copy)]
pub struct Digit;

impl ByteClass for Digit {
    ghost passes = { λ _. is_digit };

    fn has(self, b: u8) -> bool {
        is_digit(b)
    }
}

// The bytes of a class, and `_`.
#[derive(Clone, Copy)]
pub struct OrUnderscore<C>(pub C);

impl<C: ByteClass> ByteClass for OrUnderscore<C> {
    ghost passes = { λ class b. C.passes class.0 b || is_underscore b };

    fn has(self, b: u8) -> bool {
        self.0.has(b) | (b == b'_')
    }
}

#[derive(Clone, Copy)]
pub struct Underscore;

impl ByteClass for Underscore {
    ghost passes = { λ _. is_underscore };

    fn has(self, b: u8) -> bool {
        b == b'_'
    }
}

#[derive(Clone, Copy)]
pub struct Control;

#[tactic(auto, unfolding(rules::specs::Bytes::is_control))]
impl ByteClass for Control {
    ghost passes = { λ _. is_control };

    fn has(self, b: u8) -> bool {
        b.is_ascii_control()
    }
}

#[derive(Clone, Copy)]
pub struct Over127;

#[tactic(auto, unfolding(rules::specs::Bytes::is_over127))]
impl ByteClass for Over127 {
    ghost passes = { λ _. is_over127 };

    fn has(self, b: u8) -> bool {
        !b.is_ascii()
    }
}

#[derive(Clone, Copy)]
pub struct Tail;

impl ByteClass for Tail {
    ghost passes = { λ _. is_tail };

    fn has(self, b: u8) -> bool {
        matches!(b, 0x80..=0xBF)
    }
}

#[derive(Clone, Copy)]
pub struct NotLineEnd;

#[tactic(auto, unfolding(rules::specs::Bytes::is_not_lf))]
impl ByteClass for NotLineEnd {
    ghost passes = { λ _. is_not_lf };

    fn has(self, b: u8) -> bool {
        b != b'\n'
    }
}

// An inner part of a string; `stop` is the brace in a format string, a quote in a plain one.
#[derive(Clone, Copy)]
pub struct Inner {
    pub stop: u8,
}

#[tactic(auto, unfolding(crate::specs::Classes::is_inner_for))]
impl ByteClass for Inner {
    ghost passes = { λ class. is_inner_for class.stop };

    fn has(self, b: u8) -> bool {
        !matches!(b, b'\\' | b'"' | b'\n') & (b != self.stop)
    }
}

#[tactic(auto, unfolding(rules::specs::Bytes::is_digit))]
pub fn is_digit(b: u8) -> bool
    ensures { result ≡ is_digit b }
{
    b.is_ascii_digit()
}

#[tactic(auto, unfolding(rules::specs::Bytes::is_digit, rules::specs::Bytes::is_hex_digit))]
pub fn is_hex_digit(b: u8) -> bool
    ensures { result ≡ is_hex_digit b }
{
    b.is_ascii_hexdigit()
}

// Where a run of a class ends. Kept: a `for`; with `position` lexing takes 3 to 5 % more time, and varied triple-quoted strings more than before there were classes.
#[tactic(auto, using(crate::proofs::Reach::stay, crate::proofs::Reach::more, crate::proofs::Reach::stop, crate::proofs::Reach::done))]
pub fn run_end<C: ByteClass>(text: &[u8], at: usize, class: C) -> usize
    ensures { result ≡ at + run (C.passes class) (drop at text.now) }
{
    if text.len() <= at {
        return at;
    }
    for i in at..text.len() {
        if !class.has(text[i]) {
            return i;
        }
    }
    text.len()
}

// How many bytes of a block of `N` pass before the first that does not, `N` where none does not: a loop without an exit, so that it is done in one go. Its counts are bytes, so that as many of them are held at once as bytes of the text.
fn run_in_block<C: ByteClass, const N: u8>(text: &[u8], at: usize, class: C) -> u8
    requires { at + N ≤ length text.now }
    ensures { result ≡ min N (run (C.passes class) (drop at text.now)) }
{
    let mut first = N;
    for j in 0..N {
        let here = if class.has(text[at + usize::from(j)]) {
            N
        } else {
            j
        };
        first = first.min(here);
    }
    first
}

// Where a run of a class ends that is often long: blocks of `N` bytes until one has its end.
#[tactic(auto, using(crate::proofs::Reach::join, crate::proofs::Reach::along))]
fn run_end_by_blocks<C: ByteClass, const N: u8>(text: &[u8], at: usize, class: C) -> usize
    requires { 0 < N }
    ensures { result ≡ at + run (C.passes class) (drop at text.now) }
{
    // Kept: from block to block by hand, since behind the last whole block `run_end` goes on from the place that this came to.
    let last = text.len().saturating_sub(usize::from(N) - 1);
    let mut i = at;
    while i < last {
        let passed = run_in_block::<C, N>(text, i, class);
        if passed < N {
            return i + usize::from(passed);
        }
        i += usize::from(N);
    }
    run_end(text, i, class)
}

// The end of a line, before its LF.
pub fn line_end(text: &[u8], at: usize) -> usize
    ensures { result ≡ at + run is_not_lf (drop at text.now) }
{
    run_end_by_blocks::<NotLineEnd, 64>(text, at, NotLineEnd)
}

// Where an inner part ends. Kept: the two stops apart, since blocks are read faster where the stop is a constant, and the lexer has only these two. Their size was chosen by measuring.
pub fn inner_end(text: &[u8], at: usize, stop: u8) -> usize
    ensures { result ≡ at + run (is_inner_for stop) (drop at text.now) }
{
    match stop {
        b'"' => run_end_by_blocks::<Inner, 48>(text, at, Inner { stop: b'"' }),
        b'{' => run_end_by_blocks::<Inner, 48>(text, at, Inner { stop: b'{' }),
        _ => run_end(text, at, Inner { stop }),
    }
}

// A run of whitespace: how long it is, how many line ends it has, and how many bytes were looked at to measure it. The run goes on where these are as many as it is long; one more is the byte that ends it.
#[derive(Clone, Copy, Default)]
pub struct Measured {
    pub length: usize,
    pub lines: usize,
    pub looked: usize,
}

// Bytes looked at one after the other: how many, and the last of them. All before it are spaces.
#[derive(Clone, Copy)]
struct Looked {
    byte: u8,
    count: usize,
}

#[tactic(auto, unfolding(rules::specs::Bytes::is_whitespace))]
fn is_whitespace(b: u8) -> bool
    ensures { result ≡ is_whitespace b }
{
    b.is_ascii_whitespace()
}

// Looks at `most` bytes, or at fewer until one is no space. This is the one place where whitespace is read, and each byte is counted where it is read.
fn look(text: &[u8], at: usize, most: usize) -> Looked
    requires { at + most ≤ length text.now }
    ensures { LooksAs text.now at most result }
{
    // Kept: a `for` over `0..most` takes 1.8 times as long on 2^20 spaces, and up to 18 % more on the other texts of bench/.
    let mut count = 0;
    while count < most {
        let byte = text[at + count];
        count += 1;
        if byte != b' ' {
            return Looked { byte, count };
        }
    }
    Looked { byte: b' ', count }
}

// Looks at bytes until one is no space or the text ends, eight to a turn: a loop over a given number of bytes is written out by the optimiser, each tested before the next is read.
#[tactic(auto, using(crate::proofs::Measuring::looks_on))]
fn spaces(text: &[u8], at: usize) -> Looked
    requires { at ≤ length text.now }
    ensures { LooksAs text.now at (length text.now - at) result }
{
    // Kept: a `for` over `chunks_exact(8)` costs 3 to 7 % on most of bench/'s texts; what it counts by is kept in a register through all of the lexer.
    let mut looked = 0;
    while 8 <= text.len() - (at + looked) {
        let eight = look(text, at + looked, 8);
        looked += eight.count;
        if eight.byte != b' ' {
            return Looked {
                count: looked,
                ..eight
            };
        }
    }
    let few = look(text, at + looked, text.len() - (at + looked));
    Looked {
        count: looked + few.count,
        ..few
    }
}

impl Measured {
    // The measure after more bytes were looked at: all of them are the run's, or all but the last one.
    fn further(self, seen: Looked) -> Measured
        requires { CanGrow self seen }
        ensures { result ≡ further_of self seen }
    {
        let before = seen.count - 1;
        if is_whitespace(seen.byte) {
            return Measured {
                length: self.length + seen.count,
                lines: self.lines + usize::from(seen.byte == b'\n'),
                looked: self.looked + seen.count,
            };
        }
        Measured {
            length: self.length + before,
            lines: self.lines,
            looked: self.looked + seen.count,
        }
    }

    // Whether no byte has ended the run that is measured from a position, and bytes are left.
    fn goes_on(self, text: &[u8], at: usize) -> bool
        requires { Passing text.now at self }
        ensures { result ≡ goes_on text.now at self }
    {
        (self.length == self.looked) & (at + self.length < text.len())
    }
}

// Goes on with a run until a byte ends it or the text does.
fn rest(text: &[u8], at: usize, begun: Measured) -> Measured
    requires { Passing text.now at begun }
    ensures { measured_meant result ≡ measured (drop at text.now) }
{
    // Kept: a `while`, since whether the run goes on is asked of the measure that each turn makes; no list has its turns.
    let mut run = begun;
    while run.goes_on(text, at) {
        run = run.further(spaces(text, at + run.length));
    }
    run
}

// The first two bytes of a run: most runs behind a lexeme are one byte.
#[tactic(auto, using(crate::proofs::Measuring::going, crate::proofs::Measuring::passing_more))]
fn first_two(text: &[u8], at: usize) -> Measured
    ensures { Passing text.now at result }
{
    // Kept: written twice; with a `for` over `0..2`, which takes 31 % more instructions, lexing was under twice the Rust on notes and triple-quoted strings.
    let none = Measured::default();
    if !none.goes_on(text, at) {
        return none;
    }
    let first = none.further(look(text, at + none.length, 1));
    if !first.goes_on(text, at) {
        return first;
    }
    first.further(look(text, at + first.length, 1))
}

// Measures a run of whitespace in one pass.
pub fn whitespace(text: &[u8], at: usize) -> Measured
    ensures { measured_meant result ≡ measured (drop at text.now) }
{
    rest(text, at, Measured::default())
}

// The same behind a lexeme, where the run is short: its first two bytes are looked at apart, and the pass goes on from them.
pub fn whitespace_behind(text: &[u8], at: usize) -> Measured
    ensures { measured_meant result ≡ measured (drop at text.now) }
{
    rest(text, at, first_two(text, at))
}
