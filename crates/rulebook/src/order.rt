// The order of names, and an index in it.
ghost use Rattle.std.specs.Prelude.{◌≡◌, ◌<◌, ◌≤◌, ℕ, length, get_or};
ghost use Rattle.ascii.specs.Text.{comparing};
ghost use Rattle.bookform.specs.Format.{lead_of};
ghost use Rattle.rulebook.specs.Order.{Compared, Shared, Differ};
ghost use Rattle.rulebook.specs.Index.{last_named, SortedIn, Searched, Inserted};

use crate::index::{FoundEntry, NameIndex, told};
use crate::lookup::same;
use crate::names::Listed;
use ascii::class::fold;
use ascii::same_byte;
use std::cmp::Ordering;

// Which of two names comes first, case ignored: the shorter one, or of two as long the one with the lesser byte where they first differ. So
// most names are told apart by their lengths. It also tells in how many leading bytes names of one length agree; those that are known to are not
// compared.
fn compare_from(a: &[u8], b: &[u8], from: usize) -> (Ordering, usize)
    requires { Shared a.now b.now from }
    ensures order { Compared a.now b.now result.0 }
    ensures shared { Shared a.now b.now result.1 }
    ensures most { length a.now ≡ length b.now → result.1 < length a.now → Differ a.now b.now result.1 }
{
    if a.len() < b.len() {
        return (Ordering::Less, 0);
    }
    if a.len() > b.len() {
        return (Ordering::Greater, 0);
    }
    // cut off, so that the loop counts one number alone
    let a_rest = &a[from..];
    let b_rest = &b[from..];
    for i in 0..a_rest.len() {
        if !same_byte(a_rest[i], b_rest[i], true) {
            return (fold(a_rest[i]).cmp(&fold(b_rest[i])), from + i);
        }
    }
    (Ordering::Equal, a.len())
}

// Nothing to run: that its items are bytes is known of a parameter that is a slice, not of a field.
fn known_bytes(book: &[u8])
    ensures { (i : ℕ) → get_or book.now i 0 < 256 }
{}

impl NameIndex {
    // The place of an entry that has a name, case ignored, or else where in the order the name belongs. The leading bytes that the name shares with the
    // entries at both ends of what is left it shares with all between them, so they are not compared again.
    pub(crate) fn search(&self, listed: Listed, name: &[u8]) -> Result<usize, usize>
        requires room { listed.entries.count ≤ length self.now.slots }
        requires sorted { SortedIn listed.entries listed.book.now self.now }
        ensures { Searched listed.entry.entries listed.entry.book.now self.now name.now result }
    {
        known_bytes(listed.book);
        let mut low = 0;
        let mut high = listed.entries.count;
        let mut low_shared: usize = 0;
        let mut high_shared: usize = 0;
        while low < high {
            let middle = (low + high) / 2;
            let (_, entry_name) = told(listed, self.slots[middle]);
            let (order, shared) = compare_from(entry_name, name, low_shared.min(high_shared));
            match order {
                Ordering::Less => {
                    low = middle + 1;
                    low_shared = shared;
                }
                Ordering::Equal => return Ok(middle),
                Ordering::Greater => {
                    high = middle;
                    high_shared = shared;
                }
            }
        }
        Err(low)
    }

    // The entry that has a name, in the order: the only one that may.
    pub(crate) fn sorted_named(
        &self,
        listed: Listed,
        name: &[u8],
        ignore_case: bool,
    ) -> Option<FoundEntry>
        requires few { listed.entries.count ≤ 255 }
        requires sorted { SortedIn listed.entries listed.book.now self.now }
        ensures { result ≡ last_named (comparing ignore_case) name.now (lead_of listed.entry.entries.kind) listed.entry.entries.first listed.entry.book.now listed.entry.entries.count }
    {
        let Ok(place) = self.search(listed, name) else {
            return None;
        };
        let (entry, entry_name) = told(listed, self.slots[place]);
        if same(entry_name, name, ignore_case) {
            Some(entry)
        } else {
            None
        }
    }

    // Puts a slot at a place among so many, those behind it one further.
    pub(crate) fn insert(&mut self, count: usize, place: usize, slot: u32)
        requires in_bounds { (place ≤ count) × (count < length self.old.slots) }
        ensures unchanged { (self.new.heads ≡ self.old.heads) × (self.new.sorted ≡ self.old.sorted) }
        ensures inserted { Inserted self.old.slots self.new.slots count place slot }
    {
        self.slots.copy_within(place..count, place + 1);
        self.slots[place] = slot;
    }
}
