// The parts list: from an opener's place to its closer.
ghost use Rattle.std.specs.Prelude.{◌≡◌, ◌+◌, ◌<◌, ◌^◌, false, drop};
ghost use Rattle.rules.specs.Spans.{nowhere, is_bad};
ghost use Rattle.rules.specs.Answers.{refusal as refusal_rule};
ghost use Rattle.rules.specs.Refusals.{BadSpan};
ghost use Rattle.rules.specs.Lent.{contents};
ghost use Rattle.rules.specs.Parts.{at_depth1, effect, parts_from, ListsParts};
ghost use Rattle.source.specs.Meaning.{span_meant, refusal_meant, answer_meant, count_meant, verdict_meant};
ghost use Rattle.list.specs.Entries.{entry_meant, list_meant, lent_meant, SameArrays};
ghost use Rattle.cst.specs.Search.{effect_meant, answered, opener_verdict, or_full, Searched};

use crate::{Open, Parted, StringPart};
use list::{Entry, List, ListMut};
use rules::{Reason, kind};
use source::Refusal;

// What a lexeme that is not refused does: it is the closer, it is passed over, with what is open after it, or it completes a part.
#[derive(Clone, Copy)]
pub enum Effect {
    Closes,
    Passes(Open),
    Yields(StringPart),
}

// "At depth 1, StringInner and Escape are parts; a hole is one part ..; a QuoteClose met at depth 1 ends; any other kind at depth 1 .. gives 50"
#[tactic(auto, unfolding(crate::specs::Meaning::if_part))]
fn at_depth1(entry: Entry) -> Result<Effect, Refusal>
    requires { is_bad (entry_meant entry).at ≡ false }
    ensures { answer_meant effect_meant result ≡ answered (at_depth1 (entry_meant entry)) }
{
    match StringPart::try_from(entry) {
        Ok(StringPart::Hole(hole)) => Ok(Effect::Passes(Open { depth: 2, hole })),
        Ok(part) => Ok(Effect::Yields(part)),
        Err(_) if entry.kind == kind::QUOTE_CLOSE => Ok(Effect::Closes),
        Err(_) => Err(source::refuse(Reason::NoString, entry.at)),
    }
}

// "Per lexeme: 3, 50". "Openers (QuoteOpen, HoleOpen) add one, closers take one"; "Deeper, other kinds are passed over". "a hole's span is the union of its two ends, and the 3 .. of that part comes at its closer"
#[tactic(auto, unfolding(rules::specs::Parts::effect, rules::specs::Source::union_of))]
fn effect_at(opened: Open, entry: Entry) -> Result<Effect, Refusal>
    requires { opened.depth + 1 < 2 ^ 64 }
    ensures { answer_meant effect_meant result ≡ answered (effect opened.depth (span_meant opened.hole) (entry_meant entry)) }
{
    let Open { depth, hole } = opened;
    if entry.at.is_bad() {
        return Err(source::bad_span());
    }
    if depth == 1 {
        return at_depth1(entry);
    }
    if token::opens_string_or_hole(entry.kind) {
        return Ok(Effect::Passes(Open {
            depth: depth + 1,
            hole,
        }));
    }
    if !matches!(entry.kind, kind::QUOTE_CLOSE | kind::HOLE_CLOSE) {
        return Ok(Effect::Passes(opened));
    }
    if depth == 2 {
        let whole = hole.union(entry.at)?;
        return Ok(Effect::Yields(StringPart::Hole(whole)));
    }
    Ok(Effect::Passes(Open {
        depth: depth - 1,
        hole,
    }))
}

// ", 31": a part for which the list has no place.
#[tactic(auto, unfolding(crate::specs::Search::or_full))]
fn effect_in_room(opened: Open, entry: Entry, room: usize, listed: usize) -> Result<Effect, Refusal>
    requires { opened.depth + 1 < 2 ^ 64 }
    ensures { answer_meant effect_meant result ≡ answered (or_full room listed (effect opened.depth (span_meant opened.hole) (entry_meant entry))) }
{
    match effect_at(opened, entry)? {
        Effect::Yields(part) if room <= listed => {
            Err(source::refuse(Reason::ListFull, Entry::from(part).at))
        }
        effect => Ok(effect),
    }
}

// The opener: "or a start that is no QuoteOpen, gives 50".
#[tactic(auto, unfolding(crate::specs::Search::opener_verdict))]
fn check_opener(entry: Entry) -> Result<(), Refusal>
    ensures { verdict_meant result ≡ opener_verdict (entry_meant entry) }
{
    if entry.at.is_bad() {
        return Err(source::bad_span());
    }
    if !token::is_quote_open(entry.kind) {
        return Err(source::refuse(Reason::NoString, entry.at));
    }
    Ok(())
}

// Lists the parts from a place on, at depth 1, up to the closer. Its place, or the refusal, leaves the loop by `break`. Kept: over the places by `next`, since a `for` has no value.
fn search(list: List<'_>, start: usize, parts: &mut ListMut<'_>) -> Parted<usize>
    ensures searched { Searched (parts_from start 1 nowhere (drop start (contents (list_meant list.entry)))) (count_meant result.answer) result.parts (lent_meant parts.old) (lent_meant parts.new) }
    ensures same { SameArrays parts.old parts.new }
{
    let room = parts.list().places();
    let mut places = start..list.places();
    let mut opened = Open::only_string();
    let mut listed: usize = 0;
    let answer = loop {
        let Some(place) = places.next() else {
            break Err(source::refuse(Reason::NoString, source::nowhere()));
        };
        match effect_in_room(opened, list.get(place), room, listed) {
            Ok(Effect::Closes) => break Ok(place),
            Ok(Effect::Passes(after)) => opened = after,
            Ok(Effect::Yields(part)) => {
                parts.put(listed, Entry::from(part));
                listed += 1;
                opened = Open::only_string();
            }
            Err(refusal) => break Err(refusal),
        }
    };
    Parted {
        answer,
        parts: listed,
    }
}

// Lists the parts of the string whose opener stands at a place, and answers its closer's place.
// Kept: the list with its count, as the rule's call and C have them; below it the list is that of its first entries.
pub fn parts(list: List<'_>, count: usize, place: usize, parts: &mut ListMut<'_>) -> Parted<usize>
    ensures lists { ListsParts (list_meant list.entry) count place (lent_meant parts.old) (count_meant result.answer) result.parts (lent_meant parts.new) }
    ensures same { SameArrays parts.old parts.new }
{
    let list = list.first(count);
    if list.places() <= place {
        return Parted {
            answer: Err(source::refuse(Reason::NoString, source::nowhere())),
            parts: 0,
        };
    }
    match check_opener(list.get(place)) {
        Ok(()) => search(list, place + 1, parts),
        Err(refusal) => Parted {
            answer: Err(refusal),
            parts: 0,
        },
    }
}
