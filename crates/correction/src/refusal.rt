// Why a correction is refused. specs/Number.antt gives each case its number.
ghost use Rattle.std.specs.Prelude.{◌≡◌};
ghost use Rattle.correction.specs.Number.{number_of};
ghost use Rattle.correction.specs.declared.refusal.Refusal.TheVariants.{Roster};

#[derive(Clone, Copy, Debug, PartialEq, Eq)]
pub enum Refusal {
    // n or f is refused, as a roster's would be
    Roster(forms::answer::Refusal),
    // there are not n readings
    Readings,
}

impl From<forms::answer::Refusal> for Refusal {
    ghost from_gives = { λ why told. told ≡ Roster why };

    fn from(why: forms::answer::Refusal) -> Refusal {
        Refusal::Roster(why)
    }
}

// The number of the paper's table.
impl From<Refusal> for u32 {
    ghost from_gives = { λ why n. n ≡ number_of why };

    fn from(why: Refusal) -> u32 {
        match why {
            Refusal::Roster(why) => u32::from(why),
            Refusal::Readings => 29,
        }
    }
}
