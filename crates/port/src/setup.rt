// The setup packet by numbers, for C: what crate `plan` answers for what the numbers name; 18 and zeros where one names nothing.
ghost use Rattle.std.specs.Prelude.{◌≡◌, ◌+◌, ◌*◌, ◌≤◌, false};
ghost use Rattle.plan.specs.ControlPlan.{request_type_byte};
ghost use Rattle.port.specs.Planning.{request_type_of, recipient_of, is_bad_setup, setup_words, setup_packet_numbers};
ghost use Rattle.port.specs.Tags.{direction_of};

use crate::tags::is_bad_direction;

// As C has it: 0 or the refusal number, and zeros where refused.
#[repr(C)]
#[derive(Clone, Copy)]
pub struct PortSetupPacket {
    pub refusal: u32,
    pub bytes: [u8; 8],
}

fn is_bad_setup(request_type: u8, recipient: u8, direction: u8) -> bool
    ensures { result ≡ is_bad_setup request_type recipient direction }
{
    (request_type > 3) | ((recipient > 3) | is_bad_direction(direction))
}

// Each number that names something is its own field.
fn type_byte(request_type: u8, recipient: u8, direction: u8) -> u8
    requires { is_bad_setup request_type recipient direction ≡ false }
    ensures { result ≡ request_type_byte (request_type_of request_type) (recipient_of recipient) (direction_of direction) }
{
    128 * direction + 32 * request_type + recipient
}

fn first_word(kind: u8, request: u8, value: u16) -> u32
    ensures { result ≡ kind + 256 * request + 65536 * value }
{
    kind as u32 + 256 * request as u32 + 65_536 * value as u32
}

fn last_word(index: u16, len: u64) -> u32
    requires { len ≤ 65535 }
    ensures { result ≡ index + 65536 * len }
{
    index as u32 + 65_536 * len as u32
}

// The bytes are those of two numbers, and so the answer stays in registers: chosen one by one they take half as long again, and tables of bytes, or one
// number of eight, would be joined with the refusal in memory and read back across two stores.
fn packet_of(refusal: u32, first: u32, last: u32) -> PortSetupPacket
    ensures { result ≡ setup_words refusal first last }
{
    PortSetupPacket {
        refusal,
        bytes: [
            (first % 65_536 % 256) as u8,
            (first % 65_536 / 256) as u8,
            (first / 65_536 % 256) as u8,
            (first / 65_536 / 256) as u8,
            (last % 65_536 % 256) as u8,
            (last % 65_536 / 256) as u8,
            (last / 65_536 % 256) as u8,
            (last / 65_536 / 256) as u8,
        ],
    }
}

pub fn dwc2_setup_packet_bytes(
    request_type: u8,
    recipient: u8,
    direction: u8,
    request: u8,
    value: u16,
    index: u16,
    len: u64,
) -> PortSetupPacket
    ensures { result ≡ setup_packet_numbers request_type recipient direction request value index len }
{
    if is_bad_setup(request_type, recipient, direction) {
        return packet_of(18, 0, 0);
    }
    if len > 65_535 {
        return packet_of(19, 0, 0);
    }
    let kind = type_byte(request_type, recipient, direction);
    packet_of(0, first_word(kind, request, value), last_word(index, len))
}
