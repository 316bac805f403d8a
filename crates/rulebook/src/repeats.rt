// Names that repeat earlier ones, found by the index that is made on the way.
ghost use Rattle.std.specs.Prelude.{◌≡◌, ℕ, true, false, None, ◌<◌, ◌≤◌, get_or, MatchResult};
ghost use Rattle.std.specs.Option.{MatchOption};
ghost use Rattle.bookform.specs.Format.{lead_of};
ghost use Rattle.rulebook.specs.Book.{header_of, book_of};
ghost use Rattle.refusal.specs.Verdict.{refusal_at};
ghost use Rattle.rulebook.specs.Check.{book_fault};
ghost use Rattle.rulebook.specs.Index.{Indexed, IndexedIn, Next, Enters, AllEntered, Refused, Fresh, Blank, Indexes};

use crate::index::{Index, NameIndex, signature, told};
use crate::lookup::{FormedBook, same};
use crate::names::Listed;
use refusal::{Reason, Refusal};

// So many entries are asked whether they have a name with their signature. Where there are more, all are put in order: that is slower for names
// as they come, but no choice of names makes it slow.
const LONG_CHAIN: usize = 8;

// What came of entering a name: it is there, an earlier entry has it, or too many would have to be asked.
enum Entered {
    New,
    Repeat,
    LongChain,
}

impl NameIndex {
    // On the chain of its signature.
    fn enter_chain(&mut self, earlier: Listed, name: &[u8], slot: u32) -> Entered
        requires chains { self.old.sorted ≡ false }
        requires next { Next earlier.entries earlier.book.now name.now slot }
        requires indexed { IndexedIn earlier.entries earlier.book.now self.old }
        ensures { Enters earlier.entry.entries earlier.entry.book.now name.now self.old self.new result }
    {
        let mark = signature(name);
        let mut asked = 0;
        let mut behind = self.heads[mark];
        while behind != 0 {
            if asked == LONG_CHAIN {
                return Entered::LongChain;
            }
            let (entry, entry_name) = told(earlier, behind);
            if same(entry_name, name, true) {
                return Entered::Repeat;
            }
            behind = self.slots[entry.index];
            asked += 1;
        }
        self.slots[earlier.entries.count] = self.heads[mark];
        self.heads[mark] = slot;
        Entered::New
    }

    // In the order.
    fn enter_sorted(&mut self, earlier: Listed, name: &[u8], slot: u32) -> Entered
        requires sorted { self.old.sorted ≡ true }
        requires next { Next earlier.entries earlier.book.now name.now slot }
        requires indexed { IndexedIn earlier.entries earlier.book.now self.old }
        ensures { Enters earlier.entry.entries earlier.entry.book.now name.now self.old self.new result }
    {
        match self.search(earlier, name) {
            Ok(_) => Entered::Repeat,
            Err(place) => {
                self.insert(earlier.entries.count, place, slot);
                Entered::New
            }
        }
    }

    // The entry behind the earlier ones, by its name and its slot, is entered in the index's form, which is known when this is compiled: so the loop over
    // the names of an ordinary book has nothing of the order in it.
    fn enter<const SORTED: bool>(&mut self, earlier: Listed, name: &[u8], slot: u32) -> Entered
        requires form { self.old.sorted ≡ SORTED }
        requires next { Next earlier.entries earlier.book.now name.now slot }
        requires indexed { IndexedIn earlier.entries earlier.book.now self.old }
        ensures { Enters earlier.entry.entries earlier.entry.book.now name.now self.old self.new result }
    {
        if SORTED {
            self.enter_sorted(earlier, name, slot)
        } else {
            self.enter_chain(earlier, name, slot)
        }
    }
}

// Refusal 4 at the first entry that repeats an earlier one's name, case ignored; else where the entries end, and the index is made in its form, or
// nothing if a chain is long. The place is counted beside the names: an iterator of both would have each of its other callers take a pair apart.
fn enter_all<const SORTED: bool>(
    listed: Listed,
    index: &mut NameIndex,
) -> Result<Option<usize>, Refusal>
    requires few { listed.entries.count ≤ 255 }
    requires bytes { (i : ℕ) → get_or listed.book.now i 0 < 256 }
    requires form { index.old.sorted ≡ SORTED }
    requires empty { Indexed (lead_of listed.entries.kind) listed.entries.first 0 listed.book.now index.old }
    ensures { MatchResult result
        (λ done. MatchOption done (index.old.sorted ≡ false) (AllEntered listed.entry.entries listed.entry.book.now index.new))
        (Refused listed.entry.entries listed.entry.book.now) }
{
    let entries = listed.entries;
    let lead = entries.kind.lead();
    let mut at = entries.first;
    for (number, name) in listed.names().enumerate() {
        let slot = ((at - entries.first) * 256 + number + 1) as u32;
        match index.enter::<SORTED>(listed.first(number), name, slot) {
            Entered::New => {}
            Entered::Repeat => return Err(Reason::WrongBook.at(at)),
            Entered::LongChain => return Ok(None),
        }
        at += lead + 1 + name.len();
    }
    Ok(Some(at))
}

// The same by chains, or in order where one of these is long.
fn repeat_among(listed: Listed, index: &mut NameIndex) -> Result<usize, Refusal>
    requires few { listed.entries.count ≤ 255 }
    requires bytes { (i : ℕ) → get_or listed.book.now i 0 < 256 }
    requires blank { Blank index.old }
    ensures { MatchResult result (AllEntered listed.entry.entries listed.entry.book.now index.new) (Refused listed.entry.entries listed.entry.book.now) }
{
    if let Some(end) = enter_all::<false>(listed, index)? {
        return Ok(end);
    }
    index.sorted = true;
    match enter_all::<true>(listed, index)? {
        Some(end) => Ok(end),
        // no chain is asked in the order
        None => unreachable!(),
    }
}

impl<'a> FormedBook<'a> {
    // Refusal 4 at the first repeat, among the directives, else among the clauses; else where the directives end, and the index is whole.
    pub fn index_names(self, index: &mut Index) -> Result<usize, Refusal>
        requires { Fresh index.old }
        ensures { MatchResult result
            (λ end. (book_fault self.entry.bytes.now ≡ None) × (Indexes self.entry.bytes.now index.new) × (end ≡ (header_of self.entry.bytes.now).clauses.first))
            (λ r. (r ≡ refusal_at Reason.WrongBook r.place) × (book_fault self.entry.bytes.now ≡ Some r.place)) }
    {
        let directives = Listed {
            book: self.bytes,
            entries: self.directives(),
        };
        let end = repeat_among(directives, &mut index.directives)?;
        let clauses = Listed {
            book: self.bytes,
            entries: self.clauses(end),
        };
        repeat_among(clauses, &mut index.clauses)?;
        Ok(end)
    }
}
