//! The names that Ceph gives to devices.

ghost use Rattle.std.specs.Prelude.{◌≡◌, ◌≤◌, take};
ghost use Rattle.crush_units.specs.Name.{IsName};
ghost use Rattle.crush_units.specs.OsdName.{osd_name};

use super::Name;
use crate::id::DeviceId;
use crate::text::{Short, Text};
use itoa::Buffer;
use std::alloc::Allocator;

impl DeviceId {
    /// Returns the name that Ceph gives to the device with this id, for example `osd.7` for the id
    /// 7. No memory is allocated.
    pub fn osd_name<A: Allocator>(self) -> Name<A>
        ensures { result ≡ osd_name self }
    {
        let mut bytes = [0; 14];
        let len = write_osd_name(self, &mut bytes);
        Name {
            text: Text::Short(Short::new(&bytes[..len])),
        }
    }
}

#[tactic(auto, using(crate::proofs::OsdNames::osd_name_is_name))]
fn write_osd_name(device: DeviceId, out: &mut [u8; 14]) -> usize
    ensures fits { result ≤ 14 }
    ensures text { take result out.new ≡ osd_name device }
    ensures name { IsName (osd_name device) }
{
    let mut buffer = Buffer::new();
    let digits = buffer.format(device.number()).as_bytes();
    let len = digits.len();
    prove!(len <= 10);
    out[..4].copy_from_slice(b"osd.");
    out[4..4 + len].copy_from_slice(digits);
    4 + len
}
