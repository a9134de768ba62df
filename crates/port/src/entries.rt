// One entry of a table, at an offset: a request takes 20 bytes and a plan 7.
ghost use Rattle.std.specs.Prelude.{◌≡◌, ◌+◌, ◌≤◌, length, drop};
ghost use Rattle.std.proofs.lemmas.List.Edits.{sets};
ghost use Rattle.port.specs.Tags.{tagged_of, tagged_bytes};
ghost use Rattle.port.specs.Layout.{request_of, request_bytes, is_bad_request_bytes, plan_of, plan_bytes, is_bad_plan_bytes};

use crate::numbers::{byte_at, put, put_u16, put_u32, put_u64, u16_at, u32_at, u64_at};
use crate::tags::{Tagged, is_bad_tagged, status_of, status_tag};
use session::{IsoOutcome, IsoPacketPlan, IsoRequest};

pub(crate) fn tagged_at(bytes: &[u8], at: usize) -> Tagged
    requires { at + 6 ≤ length bytes.now }
    ensures { result ≡ tagged_of (drop at bytes.now) }
{
    Tagged {
        tag: byte_at(bytes, at),
        kind: byte_at(bytes, at + 1),
        word: u32_at(bytes, at + 2),
    }
}

pub(crate) fn put_tagged(bytes: &mut [u8], at: usize, t: Tagged)
    requires { at + 6 ≤ length bytes.old }
    ensures { bytes.new ≡ sets bytes.old at (tagged_bytes t) }
{
    put(bytes, at, [t.tag, t.kind]);
    put_u32(bytes, at + 2, t.word);
}

// Requests and plans are read and written each by functions of its own: nothing is generic over the fields of a struct.
pub(crate) fn request_at(bytes: &[u8], at: usize) -> IsoRequest
    requires { at + 20 ≤ length bytes.now }
    ensures { result ≡ request_of (drop at bytes.now) }
{
    IsoRequest {
        id: u64_at(bytes, at),
        packets: u16_at(bytes, at + 12),
        actual_length: u32_at(bytes, at + 8),
        outcome: IsoOutcome::from(tagged_at(bytes, at + 14)),
    }
}

pub(crate) fn put_request(bytes: &mut [u8], at: usize, request: IsoRequest)
    requires { at + 20 ≤ length bytes.old }
    ensures { bytes.new ≡ sets bytes.old at (request_bytes request) }
{
    put_u64(bytes, at, request.id);
    put_u32(bytes, at + 8, request.actual_length);
    put_u16(bytes, at + 12, request.packets);
    put_tagged(bytes, at + 14, Tagged::from(request.outcome));
}

pub(crate) fn is_bad_request_at(bytes: &[u8], at: usize) -> bool
    requires { at + 20 ≤ length bytes.now }
    ensures { result ≡ is_bad_request_bytes (drop at bytes.now) }
{
    is_bad_tagged(3, 4, tagged_at(bytes, at + 14))
}

pub(crate) fn plan_at(bytes: &[u8], at: usize) -> IsoPacketPlan
    requires { at + 7 ≤ length bytes.now }
    ensures { result ≡ plan_of (drop at bytes.now) }
{
    IsoPacketPlan {
        planned: u16_at(bytes, at),
        desc_index: u16_at(bytes, at + 2),
        actual: u16_at(bytes, at + 4),
        status: status_of(byte_at(bytes, at + 6)),
    }
}

pub(crate) fn put_plan(bytes: &mut [u8], at: usize, plan: IsoPacketPlan)
    requires { at + 7 ≤ length bytes.old }
    ensures { bytes.new ≡ sets bytes.old at (plan_bytes plan) }
{
    put_u16(bytes, at, plan.planned);
    put_u16(bytes, at + 2, plan.desc_index);
    put_u16(bytes, at + 4, plan.actual);
    put(bytes, at + 6, [status_tag(plan.status)]);
}

pub(crate) fn is_bad_plan_at(bytes: &[u8], at: usize) -> bool
    requires { at + 7 ≤ length bytes.now }
    ensures { result ≡ is_bad_plan_bytes (drop at bytes.now) }
{
    byte_at(bytes, at + 6) > 1
}
