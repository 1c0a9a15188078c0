// The middle of what is left of some readings when the greatest and the least differences are dropped. Equal readings count each.
ghost use Rattle.std.specs.Prelude.{◌≡◌, ◌<◌, ◌+ℤ◌, neg_ℤ};
ghost use Rattle.std.specs.Int.Signed.{mag};
ghost use Rattle.correction.specs.Counter.{half, differences};
ghost use Rattle.correction.specs.Middle.{below as Middle·below, ranked as Middle·ranked, half_down};

use crate::counter::difference;

// The least difference that there is.
const LEAST: i64 = -2_147_483_648;

// How many differences are below d. (A loop that adds, and no chain: of a filter that is counted the compiler makes a branch for each
// reading, and a correction then takes three times as long.)
fn below(readings: &[u32], expected: u32, d: i64) -> usize
    ensures { result ≡ Middle·below d (differences expected readings.now) }
{
    let mut found: usize = 0;
    for place in (0..readings.len()).rev() {
        found += usize::from(difference(readings[place], expected) < d);
    }
    found
}

// The difference of rank k: the greatest that has at most k below it. What is below is counted only for one above the best so far. It goes
// from the last reading to the first.
pub(crate) fn ranked(readings: &[u32], expected: u32, k: usize) -> i64
    ensures { result ≡ Middle·ranked k (differences expected readings.now) }
{
    let mut best = LEAST;
    for place in (0..readings.len()).rev() {
        let d = difference(readings[place], expected);
        if best < d && below(readings, expected, d) <= k {
            best = d;
        }
    }
    best
}

// The negative of the middle of two differences: their sum is halved downwards, and then negated. The caller hands over numbers in the
// range of differences, so that each step is exact.
pub(crate) fn opposite(low: i64, high: i64) -> i64
    requires { (mag low < half) × (mag high < half) }
    ensures { result ≡ neg_ℤ (half_down (low +ℤ high)) }
{
    let sum = low + high;
    let middle = sum >> 1;
    -middle
}
