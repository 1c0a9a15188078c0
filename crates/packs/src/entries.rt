// A run of entries in lent bytes, and the refusals 15 and 16, which look at all of them. A contract sees a run as the list of its entries.
ghost use Rattle.std.specs.Prelude.{◌≡◌, ◌<◌, ◌≤◌, length, get_or, ltb};
ghost use Rattle.forms.specs.Column.{how_many, count};
ghost use Rattle.packs.specs.Number.{verdict_of};
ghost use Rattle.packs.specs.Sheet.{most_entries, entries_in, no_entry, packs, backward, twice, entries_number};
ghost use Rattle.packs.specs.Steps.{Lines, Makes};

use crate::answer::Refusal;
use crate::sheet::{ENTRY, Entry, entry_at};
use forms::column::Column;
use std::marker::Model;

// The entries at from, from + 12, ..: no more than a sheet may have, inside the bytes.
#[derive(Drop)]
pub(crate) struct Entries<'a> {
    bytes: &'a [u8],
    from: usize,
    count: usize,
}

impl<'a> Model for Entries<'a> {
    ghost use Rattle.std.specs.Prelude.{List};
    ghost use Rattle.packs.specs.Sheet.{entries_in};
    ghost use Rattle.packs.specs.Steps.{Lines};
    ghost use Rattle.packs.specs.declared.sheet.Entry.{Entry};

    ghost Value = { List Entry };

    ghost view = { λ es. entries_in es.count es.bytes.now es.from };

    ghost invariant = { λ es. Lines es.bytes.now es.from es.count };
}

impl<'a> Entries<'a> {
    // A joint: the caller has checked that the run lies inside the bytes.
    pub(crate) fn new(bytes: &'a [u8], from: usize, count: usize) -> Entries<'a>
        requires { Lines bytes.now from count }
        ensures { result ≡ entries_in count bytes.now from }
    {
        Entries { bytes, from, count }
    }

    #[tactic(auto, using(crate::proofs::Runs::run_length))]
    pub(crate) fn len(&self) -> usize
        ensures { (result ≡ length self.now) × (result ≤ most_entries) }
    {
        self.count
    }

    // The entry on a line, counted from 0.
    #[tactic(auto, using(crate::proofs::Runs::run_length, crate::proofs::Runs::run_entry))]
    pub(crate) fn entry(&self, line: usize) -> Entry
        requires { line < length self.now }
        ensures { result ≡ get_or self.now line no_entry }
    {
        entry_at(self.bytes, self.from + ENTRY * line)
    }

    // Whether an entry passes a test. The first that does ends the way. A loop, since a chain over the lines would have to write clauses on
    // its closure, for what the entry of a line asks.
    #[tactic(auto, using(crate::proofs::Runs::one_passes))]
    pub(crate) fn any<F: Fn(Entry) -> bool>(&self, passes: F) -> bool
        requires { F.IsAlwaysCallable passes }
        ensures { (test : _) → Makes (F.post passes) test → result ≡ ltb 0 (how_many test self.now) }
    {
        for line in 0..self.len() {
            if passes(self.entry(line)) {
                return true;
            }
        }
        false
    }

    // The pack numbers.
    #[tactic(auto, using(crate::proofs::Runs::run_packs, crate::proofs::Runs::run_length, crate::proofs::Runs::length_packs))]
    fn packs(&self) -> Column<'a>
        ensures { (result ≡ packs self.now) × (length result ≤ most_entries) }
    {
        Column::new(self.bytes, self.from, ENTRY, self.count)
    }

    // Whether an entry has this pack number.
    pub(crate) fn lists(&self, pack: u32) -> bool
        ensures { result ≡ ltb 0 (count pack (packs self.now)) }
    {
        self.packs().contains(pack)
    }

    // Whether a pack number stands twice. Ascending entries, which our writer leaves, take one look each.
    #[tactic(auto, using(forms::proofs::Columns::ascends_once))]
    fn has_twins(&self) -> bool
        ensures { result ≡ twice self.now }
    {
        let packs = self.packs();
        !packs.ascends() && 0 < packs.tally(0).twins
    }

    // The first of 15 and 16 that applies, all entries looked at for 15 before any is for 16.
    #[tactic(auto, unfolding(crate::specs::Sheet::entries_number))]
    pub(crate) fn judge(&self) -> Result<(), Refusal>
        ensures { verdict_of result ≡ entries_number self.now }
    {
        if self.lists(0) {
            return Err(Refusal::Pack);
        }
        if self.has_twins() {
            return Err(Refusal::Pack);
        }
        if self.any(|e| e.is_backward()) {
            return Err(Refusal::Ticks);
        }
        Ok(())
    }
}
