//! Reads a device's id N from a name of the form `osd.N`.

ghost use Rattle.std.specs.Prelude.{◌≡◌, ◌==◌, ◌||◌, not, length, slice_index};
ghost use Rattle.crush_history.specs.Said.{device_named};

use crush_units::DeviceId;
use crush_units::limits::LAST_DEVICE_ID;
use crush_units::number::number_up_to;

/// Whether a number is written without superfluous leading zeros: it has only one digit, or its
/// first digit isn't 0.
fn begins_plain(digits: &[u8]) -> bool
    ensures { result ≡ (length digits.now == 1 || not (slice_index digits.now 0 == 48)) }
{
    !matches!(digits, [b'0', _, ..])
}

/// Returns the id N of a device whose name is `osd.N`, or `None` if the name doesn't have this
/// form.
///
/// N is a decimal number from 0 to 2147483647, without superfluous leading zeros. For example,
/// `osd.0` and `osd.10` have this form, and `osd.010` doesn't.
pub fn device_named(name: &[u8]) -> Option<DeviceId>
    ensures { result ≡ device_named name.now }
{
    if name.len() < 5 {
        return None;
    }
    let (front, digits) = name.split_at(4);
    if front != b"osd.".as_slice() || !begins_plain(digits) {
        return None;
    }
    let number = number_up_to(LAST_DEVICE_ID, digits)?;
    DeviceId::from_number(number)
}
