// The reader of a pack sheet: its count of entries, and an entry by its place.
ghost use Rattle.std.specs.Prelude.{◌≡◌, ◌+◌, ◌≤◌, length, IfOk};
ghost use Rattle.packs.specs.Number.{verdict_of};
ghost use Rattle.packs.specs.Question.{entry_in_force};
ghost use Rattle.packs.specs.Sheet.{entry_size, entry_in_bytes, backward, sheet_number, told_by, counted, sheet_told, entry_on};
ghost use Rattle.packs.specs.Sheet.{entries_of as Sheet·entries_of};

use crate::answer::Refusal;
use crate::entries::Entries;
use fields::field::{half, word};

// Where the entries begin: behind the count and this offset. No sheet is shorter.
pub const ENTRIES: usize = 4;

// The same, as the field of a sheet that states it.
pub(crate) const OFFSET: u32 = ENTRIES as u32;

// Bytes of an entry: three words.
pub const ENTRY: usize = 12;

// Where first and end stand in an entry.
pub(crate) const FIRST: usize = 4;

pub(crate) const END: usize = 8;

pub const MOST_ENTRIES: usize = 200;

// Bytes of the longest sheet: 2,404.
pub const LONGEST: usize = ENTRIES + MOST_ENTRIES * ENTRY;

// A pack number, the first tick of its licence, and the first tick no longer licensed.
#[derive(Clone, Copy, Default)]
pub struct Entry {
    pub pack: u32,
    pub first: u32,
    pub end: u32,
}

impl Entry {
    // Whether the licence ends before it begins. One that ends where it begins is allowed: it is never in force.
    pub(crate) fn is_backward(self) -> bool
        ensures { result ≡ backward self }
    {
        self.end < self.first
    }

    // Whether this is the entry of a pack, and in force at a tick.
    pub(crate) fn is_in_force(self, pack: u32, tick: u32) -> bool
        ensures { result ≡ entry_in_force pack tick self }
    {
        self.pack == pack && self.first <= tick && tick < self.end
    }
}

// The entries of a sheet that is taken.
#[tactic(auto, using(crate::proofs::Runs::length_entries_in), unfolding(crate::specs::Sheet::sheet_number, crate::specs::Sheet::sheet_told))]
pub(crate) fn entries_of(b: &[u8]) -> Result<Entries<'_>, Refusal>
    ensures { (verdict_of result ≡ sheet_number b.now) × IfOk result (λ es. es ≡ Sheet·entries_of b.now)
        × (told_by (counted result) ≡ sheet_told b.now) }
{
    if b.len() < ENTRIES {
        return Err(Refusal::Layout);
    }
    if half(b, 2) != OFFSET {
        return Err(Refusal::Layout);
    }
    let count = half(b, 0) as usize;
    if MOST_ENTRIES < count {
        return Err(Refusal::Layout);
    }
    if b.len() != ENTRIES + ENTRY * count {
        return Err(Refusal::Layout);
    }
    let entries = Entries::new(b, ENTRIES, count);
    entries.judge()?;
    Ok(entries)
}

// How many entries a sheet has that is taken.
#[tactic(auto, using(crate::proofs::Runs::length_entries_in), unfolding(crate::specs::Sheet::sheet_told))]
pub fn read_sheet(b: &[u8]) -> Result<u32, Refusal>
    ensures { told_by result ≡ sheet_told b.now }
{
    let entries = entries_of(b)?;
    Ok(entries.len() as u32)
}

// The entry at place i of the bytes: a joint, which the writer calls for the run that it is still sorting.
pub(crate) fn entry_at(b: &[u8], i: usize) -> Entry
    requires { i + entry_size ≤ length b.now }
    ensures { result ≡ entry_in_bytes b.now i }
{
    Entry {
        pack: word(b, i),
        first: word(b, i + FIRST),
        end: word(b, i + END),
    }
}

// The entry on a line, counted from 0, of a sheet that is taken; else all 0.
#[tactic(auto, unfolding(crate::specs::Sheet::entry_on))]
pub fn read_entry(b: &[u8], line: usize) -> Entry
    ensures { result ≡ entry_on b.now line }
{
    if let Ok(entries) = entries_of(b) {
        if line < entries.len() {
            return entries.entry(line);
        }
    }
    Entry::default()
}
