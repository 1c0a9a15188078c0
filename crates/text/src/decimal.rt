// Numbers of 32 bits in decimal digits, as programs print and read them.
ghost use Rattle.std.specs.Prelude.{◌≡◌, ◌≤◌, length, drop};
ghost use Rattle.text.specs.Decimal.{most_digits, decimal, decimal_of};

// The greatest number of 32 bits has the most digits.
pub const MOST_DIGITS: usize = 10;

// The number ten, as digits are counted.
const TEN: u32 = 10;

// Makes a number's decimal digits at the end of a buffer, the last one last, and gives the place of the first. By hand, since the number
// says how many turns there are, and the place of the last turn is what is given.
pub(crate) fn digits(n: u32, text: &mut [u8; MOST_DIGITS]) -> usize
    ensures place { result ≤ most_digits }
    ensures made { drop result text.new ≡ decimal n }
{
    let mut k = MOST_DIGITS - 1;
    let mut rest = n;
    while TEN <= rest {
        text[k] = b'0' + (rest % TEN) as u8;
        k -= 1;
        rest /= TEN;
    }
    text[k] = b'0' + rest as u8;
    k
}

// Reads a number that is written in decimal digits, leading zeros allowed, however long the text is: a number that is too great only
// grows with more digits, so the rest need not be read. No number is what is not digits alone, none at all, or a number above 32 bits.
// The library's parse would take a plus sign.
pub fn read_decimal(text: &[u8]) -> Option<u32>
    ensures { result ≡ decimal_of text.now }
{
    if text.is_empty() {
        return None;
    }
    let mut value: u32 = 0;
    for x in text {
        if !x.is_ascii_digit() {
            return None;
        }
        value = value.checked_mul(10)?.checked_add(u32::from(x - b'0'))?;
    }
    Some(value)
}
