// How many rows are still missing until m hold a tick, for as many ticks as a word has bits: a counter of six bits for each tick, with
// the bits of one rank together in one word. A tick whose counter has run over is held by m rows.
ghost use Rattle.std.specs.Prelude.{◌≤◌, ◌<◌};
ghost use Rattle.search.specs.Levels.{capacity, Filled, Short, Raised};

// (A field for each rank: in an array of six words each would be named by a number, in the code and in the contracts.)
#[derive(Drop)]
pub struct Levels {
    pub ones: u64,
    pub twos: u64,
    pub fours: u64,
    pub eights: u64,
    pub sixteens: u64,
    pub more: u64,
    // the ticks whose counter has run over
    pub over: u64,
}

// A word of equal bits.
fn filled(c: u64) -> u64
    ensures { Filled c result }
{
    if c % 2 == 1 { u64::MAX } else { 0 }
}

impl Levels {
    // Where a counter of six bits runs over.
    pub(crate) const CAPACITY: u64 = 1 << 6;

    // Every tick is m rows short of running over.
    pub(crate) fn short_of(m: u64) -> Levels
        requires { (0 < m) × (m ≤ capacity) }
        ensures { Short m result }
    {
        let from = Levels::CAPACITY - m;
        Levels {
            ones: filled(from),
            twos: filled(from / 2),
            fours: filled(from / 4),
            eights: filled(from / 8),
            sixteens: filled(from / 16),
            more: filled(from / 32),
            over: 0,
        }
    }

    // Counts one row: a has the bits of the ticks that it holds. Each rank takes what is carried from the rank below.
    pub(crate) fn raised(self, a: u64) -> Levels
        ensures { Raised self a result }
    {
        let to_twos = self.ones & a;
        let to_fours = self.twos & to_twos;
        let to_eights = self.fours & to_fours;
        let to_sixteens = self.eights & to_eights;
        let to_more = self.sixteens & to_sixteens;
        Levels {
            ones: self.ones ^ a,
            twos: self.twos ^ to_twos,
            fours: self.fours ^ to_fours,
            eights: self.eights ^ to_eights,
            sixteens: self.sixteens ^ to_sixteens,
            more: self.more ^ to_more,
            over: self.over | (self.more & to_more),
        }
    }
}
