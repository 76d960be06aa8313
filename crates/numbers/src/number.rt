// A number as decimal digits spell it.
ghost use Rattle.std.specs.Prelude.{◌≡◌};
ghost use Rattle.numbers.specs.Number.{is_digit, number_in};

pub const MOST_DIGITS: usize = 10;

// The number that one to ten decimal digits spell, if 32 bits hold it. Anything else is none.
pub fn number_of(digits: &[u8]) -> Option<u32>
    ensures { result ≡ number_in digits.now }
{
    if digits.is_empty() || MOST_DIGITS < digits.len() {
        return None;
    }
    let mut number: u32 = 0;
    for &digit in digits {
        if !is_digit(digit) {
            return None;
        }
        number = number
            .checked_mul(10)?
            .checked_add(u32::from(digit - b'0'))?;
    }
    Some(number)
}

fn is_digit(octet: u8) -> bool
    ensures { result ≡ is_digit octet }
{
    matches!(octet, b'0'..=b'9')
}
