// "What is turned down, and where": why, by the names of `Refusals.antt`.
ghost use Rattle.std.specs.Prelude.{◌≡◌, false};
ghost use Rattle.rules.specs.Refusals.{is_named};

// A number that the table does not have.
#[derive(Clone, Copy, Debug, PartialEq, Eq)]
pub struct Unnamed {
    pub number: u8,
    pub ghost not_named: { is_named number ≡ false },
}

#[derive(Clone, Copy, Debug, PartialEq, Eq)]
pub enum Reason {
    // not UTF-8 by RFC 3629; empty span where the first bad sequence begins
    NotUtf8,
    // over 2^48 − 1 bytes; span 0-0
    TooLong,
    // span with start after end, end over 2^48 − 1, or a union of two documents
    BadSpan,
    // other control byte; the run of bytes under 0x20 or equal 0x7F, line ends included
    ControlByte,
    // byte over 127 outside strings, comments and shebangs; the run of them
    NotAscii,
    // other ASCII punctuation; 1 byte
    UnknownPunctuation,
    // `#` without `!`; 1 byte
    LoneHash,
    // `0b`, `0x` without a digit; prefix and underscores
    NoBinaryDigit,
    NoHexDigit,
    // no digit right after the dot; the dot
    NoFractionDigit,
    // no digit after e or E and its sign; empty span there
    NoExponentDigit,
    // `\u{` and hex digits without `}`; empty span after them
    NoClosingBrace,
    // `\u` with fewer than 4 hex digits; what was found
    FewHexDigits,
    // `\` is the last byte; 1 byte
    EscapeAtEnd,
    // `\` before CR or LF; 2 bytes
    EscapedLineEnd,
    // `\` before a byte over 127; both and the bytes 0x80 to 0xBF after them
    EscapedNotAscii,
    // closer and nothing open; 1 byte
    NothingOpen,
    // closer and another one due; 1 byte, note the opener
    AnotherDue,
    // end reached in a bracket; empty span at the end, note the opener
    UnclosedBracket,
    // the same in a hole, string, format string
    UnclosedHole,
    UnclosedString,
    UnclosedFormat,
    // opener and full stack; its span
    StackFull,
    // entry and full list; its span
    ListFull,
    // wrong kind code or form, or span outside the text; for the walker see there
    WrongForm,
    // other byte, A to Z, after `\`
    UnknownEscape,
    CapitalEscape,
    // `\u{}`; over 6 digits; surrogate or over 0x10FFFF
    NoDigits,
    ManyDigits,
    NotScalar,
    // the next piece does not fit the output
    OutputFull,
    // no string: see the parts list
    NoString,
    // a number without a name: no call answers one, and a refusal may be made with any number
    Other(Unnamed),
}

// The paper's number.
impl From<Reason> for u8 {
    ghost use Rattle.rules.specs.Reasons.{number_of};

    ghost from_gives = { λ reason number. number ≡ number_of reason };

    fn from(reason: Reason) -> u8 {
        match reason {
            Reason::NotUtf8 => 1,
            Reason::TooLong => 2,
            Reason::BadSpan => 3,
            Reason::ControlByte => 10,
            Reason::NotAscii => 11,
            Reason::UnknownPunctuation => 12,
            Reason::LoneHash => 13,
            Reason::NoBinaryDigit => 14,
            Reason::NoHexDigit => 15,
            Reason::NoFractionDigit => 16,
            Reason::NoExponentDigit => 17,
            Reason::NoClosingBrace => 18,
            Reason::FewHexDigits => 19,
            Reason::EscapeAtEnd => 20,
            Reason::EscapedLineEnd => 21,
            Reason::EscapedNotAscii => 22,
            Reason::NothingOpen => 23,
            Reason::AnotherDue => 24,
            Reason::UnclosedBracket => 25,
            Reason::UnclosedHole => 26,
            Reason::UnclosedString => 27,
            Reason::UnclosedFormat => 28,
            Reason::StackFull => 30,
            Reason::ListFull => 31,
            Reason::WrongForm => 40,
            Reason::UnknownEscape => 41,
            Reason::CapitalEscape => 42,
            Reason::NoDigits => 43,
            Reason::ManyDigits => 44,
            Reason::NotScalar => 45,
            Reason::OutputFull => 46,
            Reason::NoString => 50,
            Reason::Other(unnamed) => unnamed.number,
        }
    }
}

// Of any number.
impl From<u8> for Reason {
    ghost use Rattle.rules.specs.Reasons.{number_of};

    ghost from_gives = { λ number reason. number_of reason ≡ number };

    #[tactic(auto, using(crate::proofs::Reasons::none_unnamed))]
    fn from(number: u8) -> Reason {
        match number {
            1 => Reason::NotUtf8,
            2 => Reason::TooLong,
            3 => Reason::BadSpan,
            10 => Reason::ControlByte,
            11 => Reason::NotAscii,
            12 => Reason::UnknownPunctuation,
            13 => Reason::LoneHash,
            14 => Reason::NoBinaryDigit,
            15 => Reason::NoHexDigit,
            16 => Reason::NoFractionDigit,
            17 => Reason::NoExponentDigit,
            18 => Reason::NoClosingBrace,
            19 => Reason::FewHexDigits,
            20 => Reason::EscapeAtEnd,
            21 => Reason::EscapedLineEnd,
            22 => Reason::EscapedNotAscii,
            23 => Reason::NothingOpen,
            24 => Reason::AnotherDue,
            25 => Reason::UnclosedBracket,
            26 => Reason::UnclosedHole,
            27 => Reason::UnclosedString,
            28 => Reason::UnclosedFormat,
            30 => Reason::StackFull,
            31 => Reason::ListFull,
            40 => Reason::WrongForm,
            41 => Reason::UnknownEscape,
            42 => Reason::CapitalEscape,
            43 => Reason::NoDigits,
            44 => Reason::ManyDigits,
            45 => Reason::NotScalar,
            46 => Reason::OutputFull,
            50 => Reason::NoString,
            _ => Reason::Other(Unnamed { number }),
        }
    }
}
