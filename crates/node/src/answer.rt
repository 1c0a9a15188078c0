// What the calls refuse: a case for each reason. specs/Number.antt gives each case its number.
ghost use Rattle.std.specs.Prelude.{◌≡◌};
ghost use Rattle.node.specs.Number.{number_of};
ghost use Rattle.node.specs.declared.answer.Refusal.TheVariants.{Misread};

use forms::answer;

#[derive(Clone, Copy, Debug, PartialEq, Eq)]
pub enum Refusal {
    // what the reader of a form or of a frame refuses
    Misread(answer::Refusal),
    // image buffer shorter than an image of the form's n
    Short,
    // output shorter than the records of any call
    Room,
    // image buffer shorter than 32 or than its stated size, or image not sound
    Unsound,
    // port not on the image's roster
    Port,
    // node passive: its clock is not k yet
    Passive,
}

impl From<answer::Refusal> for Refusal {
    ghost from_gives = { λ why refusal. refusal ≡ Misread why };

    fn from(why: answer::Refusal) -> Refusal {
        Refusal::Misread(why)
    }
}

// The number of the paper's table.
impl From<Refusal> for u32 {
    ghost from_gives = { λ why n. n ≡ number_of why };

    fn from(why: Refusal) -> u32 {
        match why {
            Refusal::Misread(reason) => u32::from(reason),
            Refusal::Short => 6,
            Refusal::Room => 7,
            Refusal::Unsound => 8,
            Refusal::Port => 9,
            Refusal::Passive => 12,
        }
    }
}
