// The setup packet of a control transfer: document 01, "Planning transfers"; USB 2.0, 9.3.
ghost use Rattle.std.specs.Prelude.{◌≡◌};
ghost use Rattle.plan.specs.ControlPlan.{request_type_byte, setup_packet};

use crate::refusals::PlanRefusal;
use crate::types::{ControlSetup, Recipient, RequestType};
use words::Direction;

// The eight bytes of the setup packet of a control transfer.
pub fn setup_packet_bytes(
    setup: ControlSetup,
    direction: Direction,
    len: u64,
) -> Result<[u8; 8], PlanRefusal>
    ensures { result ≡ setup_packet setup direction len }
{
    if len > 65_535 {
        return Err(PlanRefusal::ControlTooLong);
    }
    let kind = request_type_byte(setup.request_type, setup.recipient, direction);
    let value = setup.value.to_le_bytes();
    let index = setup.index.to_le_bytes();
    let len = (len as u16).to_le_bytes();
    Ok([
        kind,
        setup.request,
        value[0],
        value[1],
        index[0],
        index[1],
        len[0],
        len[1],
    ])
}

fn request_type_byte(request_type: RequestType, recipient: Recipient, direction: Direction) -> u8
    ensures { result ≡ request_type_byte request_type recipient direction }
{
    u8::from(direction == Direction::In) * 128 + u8::from(request_type) * 32 + u8::from(recipient)
}
