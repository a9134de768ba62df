// The end of a session on its bytes where they stand: document 01, "Poll" and "Recovery". The pending requests, head and reason are
// written, and the ring is zeroed.
// A run of entries is told by the number of its first and of the one behind its last: a part of the bytes is no slice of entries.
ghost use Rattle.std.specs.Prelude.{◌≡◌, ◌+◌, ◌≤◌, false, map, length, drop};
ghost use Rattle.std.proofs.Math.Seq.{slice};
ghost use Rattle.std.proofs.lemmas.List.Edits.{sets};
ghost use Rattle.session.specs.Session.{ring_words};
ghost use Rattle.session.specs.Record.{is_bad_record};
ghost use Rattle.session.specs.End.{with_outcome, ended, ended_ring};
ghost use Rattle.port.specs.Layout.{request_bytes, request_of, layout_number, session_of, requests_in};
ghost use Rattle.port.specs.Parts.{ended_head};
ghost use Rattle.port.specs.Places.{requests_of, with_requests, Left};

use crate::entries::{put_request, put_tagged, request_at};
use crate::load::{config_at, head_at};
use crate::save::put_head;
use crate::tags::Tagged;
use session::{IsoHead, IsoOutcome, clear_first, ring_words, with_outcome};

// The outcome of the request at an offset.
pub(crate) fn put_outcome(bytes: &mut [u8], at: usize, outcome: IsoOutcome)
    requires { at + 20 ≤ length bytes.old }
    ensures { bytes.new ≡ sets bytes.old at (request_bytes (with_outcome outcome (request_of (drop at bytes.old)))) }
{
    let request = request_at(bytes, at);
    put_request(bytes, at, with_outcome(request, outcome));
}

// The outcome of the requests from `from` to `to`.
fn fail_at(bytes: &mut [u8], from: u16, to: u16, outcome: IsoOutcome)
    requires { (layout_number bytes.old ≡ 0)
        × Left bytes.old bytes.old (session_of bytes.old)
        × (from ≤ to)
        × (to ≤ requests_in (session_of bytes.old)) }
    ensures { Left bytes.old bytes.new
        (with_requests (session_of bytes.old)
        (sets (requests_of bytes.old) from (map (with_outcome outcome) (slice from to (requests_of bytes.old))))) }
{
    for i in from..to {
        put_outcome(bytes, 40 + 20 * i as usize, outcome);
    }
}

fn ended_head(head: IsoHead) -> IsoHead
    ensures { result ≡ ended_head head }
{
    IsoHead {
        live: false,
        td_last: 0,
        start_full_frame: 0,
        done: head.count,
        ..head
    }
}

pub(crate) fn end_at(bytes: &mut [u8], outcome: IsoOutcome, ring: &mut [u32])
    requires { (layout_number bytes.old ≡ 0)
        × (is_bad_record (session_of bytes.old) ≡ false)
        × (ring_words (session_of bytes.old).cfg ≤ length ring.old) }
    ensures { (Left bytes.old bytes.new (ended outcome (session_of bytes.old)))
        × (ring.new ≡ ended_ring (session_of bytes.old) ring.old) }
{
    let words = ring_words(config_at(bytes));
    let head = head_at(bytes);
    fail_at(bytes, head.done, head.count, outcome);
    put_head(bytes, ended_head(head));
    put_tagged(bytes, 34, Tagged::from(None));
    clear_first(ring, words);
}
