// What the reader and the writer of a sheet refuse, what the question refuses, and how a pack stands. specs/Number.antt gives each case
// its number.
ghost use Rattle.std.specs.Prelude.{◌≡◌};
ghost use Rattle.packs.specs.Number.{number_of, licence_of};

#[derive(Clone, Copy, Debug, PartialEq, Eq)]
pub enum Refusal {
    // sheet not laid out as it must be, or more than 200 entries
    Layout,
    // a pack number is 0 or stands twice
    Pack,
    // first above end
    Ticks,
    // output shorter than what would be written
    Room,
    // the node's image is not sound, or its buffer too short
    Image,
    // the node is passive: it has no clock to ask at
    Passive,
}

// The number of the paper's table.
impl From<Refusal> for u32 {
    ghost from_gives = { λ why n. n ≡ number_of why };

    fn from(why: Refusal) -> u32 {
        match why {
            Refusal::Layout => 14,
            Refusal::Pack => 15,
            Refusal::Ticks => 16,
            Refusal::Room => 7,
            Refusal::Image => 8,
            Refusal::Passive => 12,
        }
    }
}

// How a pack stands at a tick.
#[derive(Clone, Copy, Debug, PartialEq, Eq)]
pub enum Licence {
    // not on the sheet
    NotLicensed,
    // on the sheet, but not at this tick
    NotInForce,
    InForce,
}

// The number that C is told.
impl From<Licence> for u32 {
    ghost from_gives = { λ how n. n ≡ licence_of how };

    fn from(how: Licence) -> u32 {
        match how {
            Licence::NotLicensed => 0,
            Licence::NotInForce => 1,
            Licence::InForce => 2,
        }
    }
}
