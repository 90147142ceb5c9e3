// The UTF-8 check, lexing, and the tidy writer.
ghost use Rattle.std.specs.Prelude.{◌≡◌};
ghost use Rattle.rules.specs.Utf8.{first_bad};
ghost use Rattle.rules.specs.Lent.{lent};
ghost use Rattle.rules.specs.Lexing.{Lexes};
ghost use Rattle.rules.specs.Tidy.{Tidies};
ghost use Rattle.words.specs.Lexing.{offset_or_all, lexed_in, canonical_lexed};

use list::ListMut;
use words::{LexedWords, TidiedWords};

// Where the first bad sequence begins, or 2^64 − 1 where the text is UTF-8.
#[unsafe(no_mangle)]
pub extern "C" fn rcl_utf8(text: &[u8]) -> u64
    ensures { result ≡ offset_or_all (first_bad text.now) }
{
    words::offset(utf8::check(text))
}

// Lexes a text into a lent list with a lent stack.
#[unsafe(no_mangle)]
pub extern "C" fn rcl_lex(
    doc: u32,
    text: &[u8],
    kinds: &mut [u8],
    words: &mut [u64],
    skinds: &mut [u8],
    swords: &mut [u64],
) -> LexedWords
    ensures lexes { Lexes doc text.now (lent kinds.old words.old) (lent skinds.old swords.old) (lexed_in result) (lent kinds.new words.new) (lent skinds.new swords.new) }
    ensures canonical { result ≡ canonical_lexed result }
{
    let mut list = ListMut { kinds, words };
    let mut stack = ListMut {
        kinds: skinds,
        words: swords,
    };
    LexedWords::from(lexer::lex(doc, text, &mut list, &mut stack))
}

// Lexes a text into a lent list with a lent stack, then writes it tidily to an output.
#[unsafe(no_mangle)]
pub extern "C" fn rcl_tidy(
    doc: u32,
    text: &[u8],
    kinds: &mut [u8],
    words: &mut [u64],
    skinds: &mut [u8],
    swords: &mut [u64],
    output: &mut [u8],
) -> TidiedWords
    ensures tidies { Tidies doc text.now (lent kinds.old words.old) (lent skinds.old swords.old) output.old (lexed_in result.lexed) result.written (lent kinds.new words.new) (lent skinds.new swords.new) output.new }
    ensures canonical { result.lexed ≡ canonical_lexed result.lexed }
{
    let mut list = ListMut { kinds, words };
    let mut stack = ListMut {
        kinds: skinds,
        words: swords,
    };
    TidiedWords::from(tidy::tidy(doc, text, &mut list, &mut stack, output))
}
