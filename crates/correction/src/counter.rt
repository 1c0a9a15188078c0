// Readings of a counter that runs past its top and starts at 0: the difference of two of them, as a signed number.
ghost use Rattle.std.specs.Prelude.{◌≡◌};
ghost use Rattle.correction.specs.Counter.{difference as Counter·difference};

// Reading minus expected round the wrap: how far the counter runs on, read as a signed word.
pub fn difference(reading: u32, expected: u32) -> i64
    ensures { result ≡ Counter·difference reading expected }
{
    i64::from(reading.wrapping_sub(expected).cast_signed())
}
