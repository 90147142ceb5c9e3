// A list of lexemes, openers or parts in two lent arrays: a kind code for each, and the two words of its span. Its places are the smaller of the first length and half the second.
#![tactic(auto)]

ghost use Rattle.std.specs.Prelude.{◌≡◌, ◌<◌, ◌^◌, length, take, drop};
ghost use Rattle.std.specs.Iterator.{YieldsFirstBy, item_count};
ghost use Rattle.rules.specs.Lent.{places_of, array_places, contents, arrays};
ghost use Rattle.list.specs.Entries.{entry_meant, first_of, put_in, list_meant, entries_left, lent_meant, SameArrays};

use rules::kind;
use source::Span;

#[derive(Clone, Copy, Debug, PartialEq, Eq)]
pub struct Entry {
    pub kind: u8,
    pub at: Span,
}

// A list that is lent to be read. Kept: two arrays, and two words for each span, as C lends them.
#[derive(Clone, Copy)]
pub struct List<'a> {
    pub kinds: &'a [u8],
    pub words: &'a [u64],
}

// A list that is lent to be filled.
#[derive(Drop)]
pub struct ListMut<'a> {
    pub kinds: &'a mut [u8],
    pub words: &'a mut [u64],
}

// How many entries two arrays can hold.
pub fn places(kinds: &[u8], words: &[u64]) -> usize
    ensures places { result ≡ places_of kinds.now words.now }
    ensures small { result < 2 ^ 63 }
{
    kinds.len().min(words.len() / 2)
}

// Writes an entry at a place of two arrays; past the places nothing is written.
pub fn put(kinds: &mut [u8], words: &mut [u64], place: usize, entry: Entry)
    ensures { arrays kinds.new words.new ≡ put_in place (entry_meant entry) (arrays kinds.old words.old) }
{
    if places(kinds, words) <= place {
        return;
    }
    kinds[place] = entry.kind;
    words[place * 2] = entry.at.low;
    words[place * 2 + 1] = entry.at.high;
}

impl<'a> List<'a> {
    // How many entries the arrays can hold.
    pub fn places(self) -> usize
        ensures places { result ≡ array_places (list_meant self.entry) }
        ensures entries { result ≡ length (contents (list_meant self.entry)) }
        ensures small { result < 2 ^ 63 }
    {
        places(self.kinds, self.words)
    }

    // Where a list with so many entries ends: "the smaller of its count and its places".
    pub fn end(self, count: usize) -> usize
        ensures { result ≡ length (take count (contents (list_meant self.entry))) }
    {
        count.min(self.places())
    }

    // The list of the first entries; of all of them, where there are no more.
    pub fn first(self, count: usize) -> List<'a>
        ensures { contents (list_meant result) ≡ take count (contents (list_meant self.entry)) }
    {
        let end = self.end(count);
        List {
            kinds: &self.kinds[..end],
            words: &self.words[..end * 2],
        }
    }

    // The entry at a place; past the places, a Space at 0-0.
    // Kept: an entry and no `Option`: callers ask within the end of a list, where there is one, and a single step looks at the depth before it uses the entry. With an `Option` each would have an arm that is never taken.
    pub fn get(self, place: usize) -> Entry
        ensures { entry_meant result ≡ first_of (drop place (contents (list_meant self.entry))) }
    {
        if self.places() <= place {
            return Entry {
                kind: kind::SPACE,
                at: source::nowhere(),
            };
        }
        Entry {
            kind: self.kinds[place],
            at: Span {
                low: self.words[place * 2],
                high: self.words[place * 2 + 1],
            },
        }
    }
}

// The entries of a list, one after another.
#[derive(Drop)]
pub struct Iter<'a> {
    left: List<'a>,
}

impl Iterator for Iter<'_> {
    type Item = Entry;

    ghost next_gives = { YieldsFirstBy entry_meant entries_left };

    ghost remaining = { item_count entries_left };

    #[tactic(auto, using(crate::proofs::Entries::no_entry))]
    fn next(&mut self) -> Option<Entry> {
        let ([kind, kinds @ ..], [low, high, words @ ..]) = (self.left.kinds, self.left.words)
        else {
            return None;
        };
        self.left = List { kinds, words };
        Some(Entry {
            kind: *kind,
            at: Span {
                low: *low,
                high: *high,
            },
        })
    }
}

impl<'a> IntoIterator for List<'a> {
    type Item = Entry;

    type IntoIter = Iter<'a>;

    ghost into_iter_gives = { λ list it. entries_left it ≡ contents (list_meant list) };

    fn into_iter(self) -> Iter<'a> {
        Iter { left: self }
    }
}

impl ListMut<'_> {
    // The same list, to be read.
    pub fn list(&self) -> List<'_>
        ensures { list_meant result ≡ lent_meant self.now }
    {
        List {
            kinds: self.kinds,
            words: self.words,
        }
    }

    // Writes an entry at a place; past the places nothing is written.
    pub fn put(&mut self, place: usize, entry: Entry)
        ensures put { lent_meant self.new ≡ put_in place (entry_meant entry) (lent_meant self.old) }
        ensures same { SameArrays self.old self.new }
    {
        put(self.kinds, self.words, place, entry);
    }
}
