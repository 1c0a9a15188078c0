// The roster rules: numbers 2 and 21 of n and f alone, and with 3, 4 and 5 those of a column of serials, 4 apart in a form, a row apart
// in an image.
ghost use Rattle.std.specs.Prelude.{◌≡◌};
ghost use Rattle.forms.specs.Number.{verdict_of};
ghost use Rattle.forms.specs.Roster.{limits_then, roster_number};

use crate::answer::Refusal;
use crate::column::Column;

// The greatest n.
pub const MOST_LINES: usize = 32;

// The first of 2 and 21 that applies to n and f.
pub fn judge_limits(n: usize, f: u32) -> Result<(), Refusal>
    ensures { verdict_of result ≡ limits_then n f 0 }
{
    if n < 1 {
        return Err(Refusal::Limits);
    }
    if MOST_LINES < n {
        return Err(Refusal::Limits);
    }
    if n < 3 * (f as usize) + 1 {
        return Err(Refusal::Limits);
    }
    if (f as usize) < (n - 1) / 3 {
        return Err(Refusal::Understated);
    }
    Ok(())
}

// The first of 2, 21, 3, 4 and 5 that applies to a column of serials.
pub fn judge(f: u32, own: u32, serials: &Column) -> Result<(), Refusal>
    ensures { verdict_of result ≡ roster_number f own serials.now }
{
    judge_limits(serials.len(), f)?;
    if own == 0 {
        return Err(Refusal::Zero);
    }
    let seen = serials.tally(own);
    if 0 < seen.zeros {
        return Err(Refusal::Zero);
    }
    if 0 < seen.twins {
        return Err(Refusal::Twice);
    }
    if seen.same == 0 {
        return Err(Refusal::Stranger);
    }
    Ok(())
}
