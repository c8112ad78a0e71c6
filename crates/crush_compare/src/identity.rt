//! Decides which items of two maps are the same item.

ghost use Rattle.std.specs.Prelude.{◌≡◌};
ghost use Rattle.crush_compare.specs.Named.{are_one, is_one_device};

use crush_units::{DeviceId, ItemId};

/// Says when two devices of the same name are the same device.
#[derive(Clone, Copy, Debug, PartialEq, Eq)]
pub enum Devices {
    /// Two devices of the same name are the same device only if they also have the same id. Use
    /// this for two maps of one cluster.
    ById,
    /// Two devices of the same name are always the same device. Use this for the maps of two
    /// clusters.
    ByName,
}

/// Says when an item of one map and an item of another map are the same item.
#[derive(Clone, Copy, Debug, PartialEq, Eq)]
pub enum Identity {
    /// Two items are the same item if they have the same id. CRUSH itself knows an item only by its
    /// id.
    Ids,
    /// Two items are the same item if they have the same name, and both are buckets or both are
    /// devices. For two devices, the value of [`Devices`] says whether they must also have the same
    /// id.
    Names(Devices),
}

fn is_one_device(devices: Devices, here: DeviceId, there: DeviceId) -> bool
    ensures { result ≡ is_one_device devices here there }
{
    match devices {
        Devices::ById => here.number() == there.number(),
        Devices::ByName => true,
    }
}

/// Whether two items of the same name are the same item. Two buckets always are, and a bucket and a
/// device never are. For two devices, `devices` decides.
pub(crate) fn are_one(devices: Devices, here: &ItemId, there: &ItemId) -> bool
    ensures { result ≡ are_one devices here.now there.now }
{
    match here {
        ItemId::Device(here) => match there {
            ItemId::Device(there) => is_one_device(devices, *here, *there),
            ItemId::Bucket(_) => false,
        },
        ItemId::Bucket(_) => match there {
            ItemId::Device(_) => false,
            ItemId::Bucket(_) => true,
        },
    }
}
