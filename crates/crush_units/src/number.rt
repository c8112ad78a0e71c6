//! Reads whole numbers in decimal.

ghost use Rattle.std.specs.Prelude.{◌≡◌, ◌≤◌, if◌then◌else◌, length, true, Some, None};
ghost use Rattle.std.specs.List.{list_all};
ghost use Rattle.std.specs.Char.{is_ascii_digit};
ghost use Rattle.std.specs.Str.Parse.{digits_value};
ghost use Rattle.crush_units.specs.Numbers.{is_number};

fn all_digits(text: &[u8]) -> bool
    ensures { result ≡ list_all is_ascii_digit text.now }
{
    text.iter().all(|byte| byte.is_ascii_digit())
}

fn value_of(digits: &[u8]) -> u64
    requires digits { list_all is_ascii_digit digits.now ≡ true }
    requires few { length digits.now ≤ 10 }
    ensures { result ≡ digits_value 10 digits.now }
{
    let mut value: u64 = 0;
    for digit in digits {
        value = value * 10 + (*digit - 48) as u64;
    }
    value
}

/// Reads a text of 1 to 10 decimal digits as a number. Returns `None` if the text doesn't have this
/// form, or if the number is above `most`.
pub fn number_up_to(most: u32, text: &[u8]) -> Option<u32>
    ensures { result ≡ (if is_number most text.now then Some (digits_value 10 text.now) else None) }
{
    if text.is_empty() || text.len() > 10 || !all_digits(text) {
        return None;
    }
    let value = value_of(text);
    if value > u64::from(most) {
        return None;
    }
    Some(value as u32)
}
