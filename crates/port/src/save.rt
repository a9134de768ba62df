// The parts of a session that stand before its tables, into its bytes; and an idle session whole.
ghost use Rattle.std.specs.Prelude.{◌≡◌, ◌+◌, ◌≤◌, length};
ghost use Rattle.std.proofs.lemmas.List.Edits.{sets};
ghost use Rattle.session.specs.Session.{idle_session};
ghost use Rattle.port.specs.Bytes.{zeros};
ghost use Rattle.port.specs.Layout.{mark_bytes, config_bytes, head_bytes, saved};

use crate::numbers::{put, put_u16, put_u32, put_u64};
use crate::tags::{direction_tag, flag_tag, mode_tag, speed_tag};
use session::{IsoConfig, IsoHead};

fn put_mark(bytes: &mut [u8])
    requires { 8488 ≤ length bytes.old }
    ensures { bytes.new ≡ sets bytes.old 0 mark_bytes }
{
    put(bytes, 0, [68, 87, 83]);
    put_u16(bytes, 3, 1);
}

fn put_config(bytes: &mut [u8], cfg: IsoConfig)
    requires { 8488 ≤ length bytes.old }
    ensures { bytes.new ≡ sets bytes.old 5 (config_bytes cfg) }
{
    put(
        bytes,
        5,
        [
            speed_tag(cfg.speed),
            direction_tag(cfg.direction),
            mode_tag(cfg.mode),
        ],
    );
    put_u16(bytes, 8, cfg.interval);
    put_u16(bytes, 10, cfg.max_packet_size);
    put(bytes, 12, [cfg.endpoint, cfg.device, cfg.mult]);
}

pub(crate) fn put_head(bytes: &mut [u8], head: IsoHead)
    requires { 8488 ≤ length bytes.old }
    ensures { bytes.new ≡ sets bytes.old 15 (head_bytes head) }
{
    put(bytes, 15, [flag_tag(head.live)]);
    put_u64(bytes, 16, head.next_request_id);
    put_u32(bytes, 24, head.start_full_frame);
    put_u16(bytes, 28, head.td_last);
    put_u16(bytes, 30, head.done);
    put_u16(bytes, 32, head.count);
}

fn put_zeros(bytes: &mut [u8], from: usize, n: usize)
    requires { from + n ≤ length bytes.old }
    ensures { bytes.new ≡ sets bytes.old from (zeros n) }
{
    bytes[from..from + n].fill(0);
}

// An idle session where it is to stand: no reason to end and tables without an entry in use are zeros. The bytes behind the session stay as they were.
pub(crate) fn put_idle(bytes: &mut [u8], cfg: IsoConfig)
    requires { 8488 ≤ length bytes.old }
    ensures { bytes.new ≡ sets bytes.old 0 (saved (idle_session cfg)) }
{
    put_mark(bytes);
    put_config(bytes, cfg);
    put_head(
        bytes,
        IsoHead {
            next_request_id: 1,
            live: false,
            td_last: 0,
            start_full_frame: 0,
            done: 0,
            count: 0,
        },
    );
    put_zeros(bytes, 34, 8_454);
}
