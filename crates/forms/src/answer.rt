// What readers and writers of this layer answer: a case for each refusal. specs/Number.antt gives each case its number.
ghost use Rattle.std.specs.Prelude.{◌≡◌};
ghost use Rattle.forms.specs.Number.{number_of};

#[derive(Clone, Copy, Debug, PartialEq, Eq)]
pub enum Refusal {
    // form shorter than 8, offset not 8, or length not 8 + 4n
    Layout,
    // n not 1..32, or n < 3f + 1
    Limits,
    // f less than n allows: below (n - 1) / 3 rounded down
    Understated,
    // a serial or the own serial is 0
    Zero,
    // a serial stands twice
    Twice,
    // own serial not in the list
    Stranger,
    // output shorter than what would be written
    Room,
    // frame not 8 long, kind not 1 or 2, byte 1 not 0 for init or above 1 for echo, or bytes 2 and 3 not zero
    Shape,
    // tick above the last tick
    Late,
}

// The number of the paper's table.
impl From<Refusal> for u32 {
    ghost from_gives = { λ why n. n ≡ number_of why };

    fn from(why: Refusal) -> u32 {
        match why {
            Refusal::Layout => 1,
            Refusal::Limits => 2,
            Refusal::Understated => 21,
            Refusal::Zero => 3,
            Refusal::Twice => 4,
            Refusal::Stranger => 5,
            Refusal::Room => 7,
            Refusal::Shape => 10,
            Refusal::Late => 11,
        }
    }
}
