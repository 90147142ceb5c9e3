// RCL -- A reasonable configuration language.
// Copyright 2023 Ruud van Asseldonk
// Licensed under the Apache License, Version 2.0 (the "License"): see NOTICE.
// From src/string.rs of RCL, changed: on bytes.

// Identifiers.
ghost use Rattle.std.specs.Prelude.{◌≡◌};
ghost use Rattle.rules.specs.Text.{all};
ghost use Rattle.rules.specs.Bytes.{is_letter, is_identifier_byte};
ghost use Rattle.rules.specs.Names.{is_identifier};

// An ASCII letter or `_`.
#[tactic(auto, unfolding(rules::specs::Bytes::is_letter))]
fn is_letter(b: u8) -> bool
    ensures { result ≡ is_letter b }
{
    b.is_ascii_alphabetic() | (b == b'_')
}

// An ASCII letter, a digit, `_` or `-`.
#[tactic(auto, unfolding(rules::specs::Bytes::is_identifier_byte))]
fn is_identifier_byte(b: u8) -> bool
    ensures { result ≡ is_identifier_byte b }
{
    is_letter(b) | scan::is_digit(b) | (b == b'-')
}

// Whether every byte may stand in an identifier.
fn all_identifier_bytes(bytes: &[u8]) -> bool
    ensures { result ≡ all is_identifier_byte bytes.now }
{
    bytes.iter().all(|b| is_identifier_byte(*b))
}

// Return whether the bytes are a valid RCL identifier.
#[tactic(auto, using(crate::proofs::Identifiers::first_letter, crate::proofs::Identifiers::last_dash), unfolding(rules::specs::Names::is_identifier))]
pub fn is_identifier(bytes: &[u8]) -> bool
    ensures { result ≡ is_identifier bytes.now }
{
    bytes.first().is_some_and(|b| is_letter(*b))
        && bytes.last() != Some(&b'-')
        && all_identifier_bytes(bytes)
        // If they satisfy all that comes first, then the only reason not to be an identifier is if there is a keyword with that name.
        && !sublexers::is_keyword(bytes)
}
