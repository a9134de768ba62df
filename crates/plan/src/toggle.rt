// The data toggle of an endpoint: USB 2.0, 8.6; document 01, "Planning transfers".
ghost use Rattle.std.specs.Prelude.{◌≡◌, true, false};
ghost use Rattle.plan.specs.Planning.{pid_of_toggle, advanced};

use words::Dwc2Pid;

// No is DATA0, yes is DATA1.
#[derive(Clone, Copy, Debug, PartialEq, Eq)]
pub struct DataToggle(pub bool);

impl DataToggle {
    pub fn data0() -> Self
        ensures { result.0 ≡ false }
    {
        DataToggle(false)
    }

    pub fn data1() -> Self
        ensures { result.0 ≡ true }
    {
        DataToggle(true)
    }

    pub fn pid(self) -> Dwc2Pid
        ensures { result ≡ pid_of_toggle self.0 }
    {
        if self.0 {
            Dwc2Pid::Data1
        } else {
            Dwc2Pid::Data0
        }
    }

    // After so many packets. Both ends flip with each packet that is acknowledged, so an odd count flips.
    pub fn advance(self, packet_count: u64) -> Self
        ensures { result.0 ≡ advanced self.0 packet_count }
    {
        if packet_count % 2 == 1 {
            DataToggle(!self.0)
        } else {
            self
        }
    }
}
