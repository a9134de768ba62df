// The packet that begins a microframe: document 01, "Ring sums", from USB 2.0, 5.9.2 (high-bandwidth endpoints).
ghost use Rattle.std.specs.Prelude.{◌≡◌, ◌<◌};
ghost use Rattle.ring.specs.RingSums.{pid_of, pid_high};

use crate::speed::Speed;
use words::{Direction, Dwc2Pid};

// DATA0, but for two or more packets in a microframe, which high speed alone has. Both are one test, by `&`, so that the compiled code
// does not branch on what a camera's endpoint has.
pub fn iso_pid(speed: Speed, direction: Direction, mult: u8) -> Dwc2Pid
    ensures { result ≡ pid_of speed direction mult }
{
    if (speed == Speed::High) & (mult > 1) {
        return pid_of_many(direction, mult);
    }
    Dwc2Pid::Data0
}

// The first of two or more packets: IN counts them down to DATA0, OUT marks all but the last as MDATA.
fn pid_of_many(direction: Direction, mult: u8) -> Dwc2Pid
    requires { 1 < mult }
    ensures { result ≡ pid_high direction mult }
{
    match direction {
        Direction::In if mult == 2 => Dwc2Pid::Data1,
        Direction::In => Dwc2Pid::Data2,
        Direction::Out => Dwc2Pid::MData,
    }
}
