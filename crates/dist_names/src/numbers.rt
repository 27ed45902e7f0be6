//! Numbers as digits write them: digits alone, leading zeros allowed, no sign.

ghost use Rattle.std.specs.Prelude.{◌≡◌, ◌+◌, ◌*◌, ◌<◌, ◌≤◌, ◌^◌, SomeIff};
ghost use Rattle.std.specs.{Char.digit_value, Str.Parse.IsNumeral, Str.Parse.digits_value};

// The number below 2^64 that is written by the digits of a value and one more.
fn with_digit(value: u64, byte: u8, radix: u32) -> Option<u64>
    requires low { 2 ≤ radix }
    requires high { radix ≤ 36 }
    ensures { SomeIff result ((digit_value byte < radix) × (value * radix + digit_value byte < 2 ^ 64)) (value * radix + digit_value byte) }
{
    let digit = (byte as char).to_digit(radix)?;
    let shifted = value.checked_mul(u64::from(radix))?;
    shifted.checked_add(u64::from(digit))
}

/// The number below 2^64 that the word writes in digits of this radix.
pub fn number_in(word: &[u8], radix: u32) -> Option<u64>
    requires low { 2 ≤ radix }
    requires high { radix ≤ 36 }
    ensures { SomeIff result (IsNumeral radix word.now × (digits_value radix word.now < 2 ^ 64)) (digits_value radix word.now) }
{
    if word.is_empty() {
        return None;
    }
    let mut value = 0u64;
    for byte in word {
        let Some(next) = with_digit(value, *byte, radix) else {
            return None;
        };
        value = next;
    }
    Some(value)
}

/// The number below 2^64 that the word writes in decimal digits.
pub fn number_64(word: &[u8]) -> Option<u64>
    ensures { SomeIff result (IsNumeral 10 word.now × (digits_value 10 word.now < 2 ^ 64)) (digits_value 10 word.now) }
{
    number_in(word, 10)
}

/// The number below 2^32 that the word writes in decimal digits.
pub fn number_32(word: &[u8]) -> Option<u32>
    ensures { SomeIff result (IsNumeral 10 word.now × (digits_value 10 word.now < 2 ^ 32)) (digits_value 10 word.now) }
{
    u32::try_from(number_64(word)?).ok()
}

/// The number below 2^16 that the word writes in decimal digits.
pub fn number_16(word: &[u8]) -> Option<u16>
    ensures { SomeIff result (IsNumeral 10 word.now × (digits_value 10 word.now < 2 ^ 16)) (digits_value 10 word.now) }
{
    u16::try_from(number_64(word)?).ok()
}
