// Why a log is not taken, not written or not played.
ghost use Rattle.std.specs.Prelude.{◌≡◌};

#[derive(Clone, Copy, Debug, PartialEq, Eq)]
pub enum Refusal {
    // layout of the log broken, or form or events not as a log may have them
    Layout,
    // output shorter than what would be written, or than every listing fits
    Room,
}

// The numbers of the paper's table.
impl From<Refusal> for u32 {
    ghost use Rattle.logs.specs.Refusal.{number_of};

    ghost from_gives = { λ refusal number. number ≡ number_of refusal };

    fn from(refusal: Refusal) -> u32 {
        match refusal {
            Refusal::Layout => 13,
            Refusal::Room => 7,
        }
    }
}
