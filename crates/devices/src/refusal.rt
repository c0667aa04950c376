ghost use Rattle.bus.specs.Numbers.{fault_numbers};
ghost use Rattle.devices.specs.Device.{refusal};
ghost use Rattle.std.specs.Prelude.{◌≡◌};

use bus::{Cause, Device, Fault};

// The refusal of an access by a device, with no split above it.
pub(crate) fn fault(device: Device, address: u32, cause: Cause) -> Fault
    ensures { fault_numbers result ≡ refusal device address cause }
{
    Fault {
        cause,
        address,
        device,
        depth: 0,
    }
}
