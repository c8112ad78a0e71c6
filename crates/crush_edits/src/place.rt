//! Creates edits that place a device with the name `osd.N`, in which N is the device's id.

ghost use Rattle.std.specs.Prelude.{◌≡◌};
ghost use Rattle.crush_units.specs.OsdName.{osd_name};
ghost use Rattle.crush_edits.specs.declared.edit.Edit.TheVariants.{Place};

use crate::edit::{Edit, Placing};
use crate::location::Location;
use crush_units::{DeviceId, Weight};

impl Edit {
    /// Returns the edit [`Edit::Place`] for the device with this id. In the edit, the device has
    /// the name that [`DeviceId::osd_name`] returns. If this edit is printed as a command of a
    /// script, the parser of scripts reads the same edit from the command. The call allocates no
    /// memory.
    pub fn place(how: Placing, device: DeviceId, weight: Weight, at: Location) -> Edit
        ensures { result ≡ Place how device (osd_name device) weight at }
    {
        Edit::Place {
            how,
            device,
            name: device.osd_name(),
            weight,
            at,
        }
    }
}
