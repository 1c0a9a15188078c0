// The call of a correction, with the answer that C is given. Nothing has to be checked beforehand: any n and f and any readings are
// handled. A refusal gives its number, with correction 0.
ghost use Rattle.std.specs.Prelude.{◌≡◌};
ghost use Rattle.correction.specs.Answers.{corrected_by};
ghost use Rattle.correction.specs.Correct.{correct_number, corrected};
ghost use Rattle.correction.specs.Number.{verdict_of};

use crate::middle::{opposite, ranked};
use crate::refusal::Refusal;
use forms::roster::judge_limits;

// The number of a call, and by how much the counter is to be set: two fields and no Result, since pebrassola_correct hands it to C.
#[repr(C)]
#[derive(Drop)]
pub struct Correction {
    pub number: u32,
    pub correction: i64,
}

// The first of 2, 21 and 29 that applies to so many readings.
fn judge(n: u32, f: u32, readings: usize) -> Result<(), Refusal>
    ensures { verdict_of result ≡ correct_number n f readings }
{
    let n = n as usize;
    judge_limits(n, f)?;
    if readings != n {
        return Err(Refusal::Readings);
    }
    Ok(())
}

// The correction by the readings of n counters, of which up to f may be bad.
pub fn correct(n: u32, f: u32, readings: &[u32], expected: u32) -> Correction
    ensures { corrected_by result ≡ corrected n f readings.now expected }
{
    match judge(n, f, readings.len()) {
        Err(why) => Correction {
            number: u32::from(why),
            correction: 0,
        },
        Ok(()) => {
            let lowest = ranked(readings, expected, f as usize);
            let highest = ranked(readings, expected, (n - 1 - f) as usize);
            Correction {
                number: 0,
                correction: opposite(lowest, highest),
            }
        }
    }
}
