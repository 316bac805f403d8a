// The index of a book, and looking names up by it.
ghost use Rattle.std.specs.Prelude.{◌≡◌, ◌<◌, ◌≤◌};
ghost use Rattle.ascii.specs.Text.{comparing};
ghost use Rattle.bookform.specs.Format.{lead_of};
ghost use Rattle.rulebook.specs.Book.{entries_in};
ghost use Rattle.rulebook.specs.Lookup.{find_from};
ghost use Rattle.rulebook.specs.Signature.{signature as signature_of};
ghost use Rattle.rulebook.specs.Index.{last_named, number_told, place_told, name_told, Told, Chained, Looked, Fresh, Blank};

use crate::lookup::{name_at, same};
use crate::names::Listed;
use ascii::class::fold;

// The entries of one kind, in one of two forms. Mostly they are chains: for each signature the last entry that has it, and for each entry the one
// before it with the same. Names may be chosen so that one chain has all of them: then the entries stand in the order of their names. A slot is one
// word, 0 if there is no entry, so that a link is followed by one load and the whole index is 4 KB: how far behind the first the entry stands, and
// its number.
#[derive(Drop)]
pub struct NameIndex {
    // for each signature; not read in the order
    pub heads: [u32; 256],
    // for each entry that of the one before it on its chain, or the entries in order
    pub slots: [u32; 256],
    pub sorted: bool,
}

impl NameIndex {
    fn new() -> NameIndex
        ensures { Blank result }
    {
        NameIndex {
            heads: [0; 256],
            slots: [0; 256],
            sorted: false,
        }
    }

    // The last of the entries that has a name: of those with its signature each leads to the one before.
    fn last_named(&self, listed: Listed, name: &[u8], ignore_case: bool) -> Option<FoundEntry>
        requires few { listed.entries.count ≤ 255 }
        requires chained { Chained (lead_of listed.entries.kind) listed.entries.first listed.entries.count listed.book.now self.now }
        ensures { result ≡ last_named (comparing ignore_case) name.now (lead_of listed.entry.entries.kind) listed.entry.entries.first listed.entry.book.now listed.entry.entries.count }
    {
        let mut slot = self.heads[signature(name)];
        // by links
        while slot != 0 {
            let (entry, entry_name) = told(listed, slot);
            if same(entry_name, name, ignore_case) {
                return Some(entry);
            }
            slot = self.slots[entry.index];
        }
        None
    }

    // The entry that has a name. There is no second one.
    pub fn look_up(&self, listed: Listed, name: &[u8], ignore_case: bool) -> Option<FoundEntry>
        requires { Looked listed.entries listed.book.now self.now }
        ensures { result ≡ find_from (comparing ignore_case) 0 name.now (entries_in listed.entry.entries listed.entry.book.now) }
    {
        if self.sorted {
            self.sorted_named(listed, name, ignore_case)
        } else {
            self.last_named(listed, name, ignore_case)
        }
    }
}

// The entry that a slot tells of, and its name.
pub(crate) fn told<'a>(listed: Listed<'a>, slot: u32) -> (FoundEntry, &'a [u8])
    requires { Told (lead_of listed.entries.kind) listed.entries.first listed.entries.count listed.book.now slot }
    ensures entry { result.0 ≡ record { index = number_told slot; at = place_told listed.entry.entries.first slot } }
    ensures name { result.1.now ≡ name_told (lead_of listed.entry.entries.kind) listed.entry.entries.first listed.entry.book.now slot }
{
    let packed = (slot - 1) as usize;
    let entry = FoundEntry {
        index: packed % 256,
        at: listed.entries.first + packed / 256,
    };
    let range = name_at(listed.book, listed.entries.kind.lead(), entry.at);
    (entry, &listed.book[range.start..range.end])
}

// The index of a book, which the caller lends: a kind of entries each.
#[derive(Drop)]
pub struct Index {
    pub directives: NameIndex,
    pub clauses: NameIndex,
}

impl Index {
    pub fn new() -> Index
        ensures { Fresh result }
    {
        Index {
            directives: NameIndex::new(),
            clauses: NameIndex::new(),
        }
    }
}

// An entry that was looked up: its number and the place of its first byte.
#[derive(Clone, Copy, Debug, PartialEq, Eq)]
pub struct FoundEntry {
    pub index: usize,
    pub at: usize,
}

// A number that names share if they are equal with case ignored: it is made of their bytes folded. Five bits of each tell letters apart, and of these
// the compiler knows without a sum that folding leaves them.
pub fn signature(name: &[u8]) -> usize
    ensures upper_bound { result < 256 }
    ensures value { result ≡ signature_of name.now }
{
    let mut sum = 0;
    let mut sums = 0;
    for b in name {
        sums = (sums + sum) % 4096;
        sum = (sum + usize::from(fold(*b) % 32)) % 4096;
    }
    (sum + sums * 37) % 256
}
