//! The values of numbers.
ghost use Rattle.std.specs.Prelude.{◌≡◌};
ghost use Rattle.expression_grammar.specs.Kinds.{decimal};
ghost use Rattle.expression_reader.specs.Numbers.{up_to_255};

/// The largest number of the language.
pub const MAX_NUMBER: u32 = 255;

/// The value of digits, if it is at most 255.
pub fn byte_value(digits: &[u8]) -> Option<u8>
    ensures { result ≡ up_to_255 (decimal digits.now) }
{
    let mut value: u32 = 0;
    for digit in digits {
        value = value * 10 + u32::from(digit.saturating_sub(b'0'));
        if value > MAX_NUMBER {
            return None;
        }
    }
    Some(value as u8)
}
