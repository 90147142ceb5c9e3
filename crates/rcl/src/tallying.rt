// Lexing with a tally.
ghost use Rattle.std.specs.Prelude.{◌≡◌};
ghost use Rattle.rules.specs.Lent.{lent};
ghost use Rattle.rules.specs.Lexing.{Lexes};
ghost use Rattle.rules.specs.Tally.{after_call};
ghost use Rattle.words.specs.Lexing.{lexed_in, canonical_lexed, tally_in, tally_by};

use list::ListMut;
use tally::Tally;
use words::CountedWords;

// `rcl_lex`, counted: the tally before it by its three numbers, and after it in the result.
#[unsafe(no_mangle)]
pub extern "C" fn rcl_lex_tallied(
    accepted: u64,
    refused: u64,
    steps: u64,
    doc: u32,
    text: &[u8],
    kinds: &mut [u8],
    words: &mut [u64],
    skinds: &mut [u8],
    swords: &mut [u64],
) -> CountedWords
    ensures lexes { Lexes doc text.now (lent kinds.old words.old) (lent skinds.old swords.old) (lexed_in result.lexed) (lent kinds.new words.new) (lent skinds.new swords.new) }
    ensures tally { tally_in result ≡ after_call (tally_by accepted refused steps) (lexed_in result.lexed) }
    ensures canonical { result.lexed ≡ canonical_lexed result.lexed }
{
    let before = Tally {
        accepted,
        refused,
        steps,
    };
    let mut list = ListMut { kinds, words };
    let mut stack = ListMut {
        kinds: skinds,
        words: swords,
    };
    CountedWords::from(tally::lex_tallied(before, doc, text, &mut list, &mut stack))
}
