//! Weights: how they are stored, read from a text, and printed.

ghost use Rattle.std.specs.Prelude.{◌≡◌, ◌+◌, ◌*◌, ◌^◌, ◌<◌, ◌≤◌, ◌↔◌, IsTrue, true, length, take};
ghost use Rattle.std.specs.Char.{is_ascii_digit};
ghost use Rattle.std.specs.List.{list_all, position_or_len};
ghost use Rattle.std.specs.Str.Parse.{digits_value_after};
ghost use Rattle.crush_units.specs.Weight.{weight_of_text, weight_text, units_of, weight_of_units, are_digits, is_point, PrintedIsReadBack, weight_fault_number};
ghost use Rattle.crush_units.specs.declared.limits.TheConstants.{HEAVIEST_DEVICE};

use crate::limits::{HEAVIEST_BUCKET, HEAVIEST_DEVICE};
use itoa::Buffer;
use std::marker::Model;
use thiserror::Error;

/// Why a text isn't a weight.
#[derive(Clone, Copy, Debug, PartialEq, Eq, Error)]
pub enum WeightFault {
    /// The text doesn't have the form of a weight: 1 to 10 digits, optionally followed by a point
    /// and 1 to 18 digits.
    #[error("not a weight: expected digits, with at most one point between them")]
    Syntax,
    /// The weight, rounded to units, is above 4294967295 units.
    #[error("a weight is above 65535.99999")]
    TooLarge,
}

impl WeightFault {
    /// Returns the fault's number: 1 for `Syntax`, 2 for `TooLarge`.
    pub fn number(self) -> u8
        ensures { result ≡ weight_fault_number self }
    {
        match self {
            WeightFault::Syntax => 1,
            WeightFault::TooLarge => 2,
        }
    }
}

/// A weight, from 0 to 4294967295 units. A weight of 1.0 has 65536 units. This is Ceph's own form
/// of weights: a fixed-point number with 16 bits before the point and 16 bits after it. In
/// contracts a weight's value is its number of units. Weights are ordered by their units, and the
/// default is 0.
#[derive(Clone, Copy, Debug, PartialEq, Eq, PartialOrd, Ord, Hash)]
pub struct Weight {
    units: u32,
}

impl Model for Weight {
    ghost use Rattle.std.specs.Prelude.{ℕ};

    ghost Value = { ℕ };

    ghost view = { λ weight. weight.units };

    ghost inverse = { λ n. record { units = n } };
}

impl Default for Weight {
    ghost is_default = { λ weight. weight ≡ 0 };

    fn default() -> Weight {
        Weight { units: 0 }
    }
}

impl Weight {
    /// Returns the weight with this number of units. A weight of 1.0 has 65536 units.
    pub fn from_units(units: u32) -> Weight
        ensures { result ≡ units }
    {
        Weight { units }
    }

    /// Returns the weight in units. A weight of 1.0 has 65536 units.
    pub fn units(self) -> u32
        ensures value { result ≡ self }
        ensures range { self < 2 ^ 32 }
    {
        self.units
    }

    /// Whether a device can have this weight. The weight of a device is at most 2147483647 units.
    pub fn is_device_weight(self) -> bool
        ensures { IsTrue result ↔ (self ≤ HEAVIEST_DEVICE) }
    {
        self.units <= HEAVIEST_DEVICE
    }

    /// Reads a weight from a text such as `1.5`. The text consists of 1 to 10 digits, optionally
    /// followed by a point and 1 to 18 digits. The number is rounded to the nearest unit, and half
    /// a unit is rounded up. For example, `1.0` and `1.00000` are read as 65536 units.
    ///
    /// Fails with `Syntax` if the text doesn't have this form, and with `TooLarge` if the rounded
    /// weight is above 4294967295 units.
    pub fn read(text: &str) -> Result<Weight, WeightFault>
        ensures { result ≡ weight_of_text text.now }
    {
        Weight::read_bytes(text.as_bytes())
    }

    /// Reads a weight from the bytes of a text, by the same rules and with the same faults as
    /// [`Weight::read`].
    pub fn read_bytes(text: &[u8]) -> Result<Weight, WeightFault>
        ensures { result ≡ weight_of_text text.now }
    {
        let (whole, tail) = text.split_at(point_at(text));
        if !are_digits(10, whole) {
            return Err(WeightFault::Syntax);
        }
        let number = value_after(0, whole);
        if tail.is_empty() {
            return round(number, 0);
        }
        let (_, fraction) = tail.split_at(1);
        if !are_digits(18, fraction) {
            return Err(WeightFault::Syntax);
        }
        let number = value_after(number, fraction);
        round(number, fraction.len())
    }

    /// Writes the weight's text to the start of `out` and returns the length of the text, 7 to 11
    /// bytes. The text is a whole number, a point and five digits. The printed number is rounded to
    /// the nearest multiple of 0.00001, and half of 0.00001 is rounded up.
    #[tactic(auto, using(crate::proofs::Parts::whole_part_short))]
    pub fn text(&self, out: &mut [u8; 16]) -> usize
        ensures fits { result ≤ 16 }
        ensures text { take result out.new ≡ weight_text self.now }
    {
        let parts = (self.units as u64 * 200000 + 65536) / 131072;
        let mut buffer = Buffer::new();
        let whole = buffer.format(parts / 100000).as_bytes();
        let len = whole.len();
        let fraction = [
            b'.',
            48 + (parts / 10000 % 10) as u8,
            48 + (parts / 1000 % 10) as u8,
            48 + (parts / 100 % 10) as u8,
            48 + (parts / 10 % 10) as u8,
            48 + (parts % 10) as u8,
        ];
        prove!(len <= 5);
        out[..len].copy_from_slice(whole);
        out[len..len + 6].copy_from_slice(&fraction);
        len + 6
    }
}

/// The law that the printed text of any weight is read as the same weight.
pub fn printed_is_read_back()
    ensures { PrintedIsReadBack }
{}

fn point_at(text: &[u8]) -> usize
    ensures place { result ≡ position_or_len is_point text.now }
    ensures within { result ≤ length text.now }
{
    let mut place = 0;
    while place < text.len() && text[place] != b'.' {
        place += 1;
    }
    place
}

fn all_digits(text: &[u8]) -> bool
    ensures { result ≡ list_all is_ascii_digit text.now }
{
    for byte in text {
        if !byte.is_ascii_digit() {
            return false;
        }
    }
    true
}

fn are_digits(most: usize, text: &[u8]) -> bool
    ensures { result ≡ are_digits most text.now }
{
    !text.is_empty() && text.len() <= most && all_digits(text)
}

fn value_after(start: u128, digits: &[u8]) -> u128
    requires digits { list_all is_ascii_digit digits.now ≡ true }
    requires room { (start + 1) * 10 ^ length digits.now ≤ 10 ^ 28 }
    ensures value { result ≡ digits_value_after 10 start digits.now }
    ensures small { result < (start + 1) * 10 ^ length digits.now }
{
    let mut number = start;
    for digit in digits {
        number = number * 10 + (*digit - 48) as u128;
    }
    number
}

fn ten_to(places: usize) -> u128
    requires { places ≤ 18 }
    ensures value { result ≡ 10 ^ places }
    ensures some { 0 < result }
    ensures small { result ≤ 10 ^ 18 }
{
    let mut power: u128 = 1;
    for _ in 0..places {
        power *= 10;
    }
    power
}

/// Rounds a decimal number to the nearest unit; half a unit is rounded up. `number` is the number
/// that all digits form without the point, and `places` is how many digits follow the point. Fails
/// with `TooLarge` if the result is above 4294967295 units.
fn round(number: u128, places: usize) -> Result<Weight, WeightFault>
    requires number { number < 10 ^ 28 }
    requires places { places ≤ 18 }
    ensures { result ≡ weight_of_units (units_of number places) }
{
    let scale = ten_to(places);
    let units = (number * 131072 + scale) / (2 * scale);
    if units <= u128::from(HEAVIEST_BUCKET) {
        Ok(Weight {
            units: units as u32,
        })
    } else {
        Err(WeightFault::TooLarge)
    }
}
