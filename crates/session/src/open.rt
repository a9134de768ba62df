// Opening: document 01, "The session". One endpoint configuration is fixed, and the ring is zeroed.
ghost use Rattle.std.specs.Prelude.{◌≡◌, cond, ◌≤◌, ltb, length};
ghost use Rattle.session.specs.Session.{idle_session, cleared, ring_words};
ghost use Rattle.session.specs.Open.{opened, opened_ring};

use crate::record::is_bad_config;
use crate::refusal::IsoRefusal;
use crate::tables::{blank_plan, blank_request};
use crate::types::{IsoChannelState, IsoConfig, IsoHead};
use ring::iso_ring_size;

#[derive(Clone, Copy)]
pub struct Opened {
    pub answer: Result<(), IsoRefusal>,
    pub session: IsoChannelState,
}

impl IsoChannelState {
    // An idle session of the configuration; where it is accepted, the ring is zero.
    pub fn open(cfg: IsoConfig, ring: &mut [u32]) -> Opened
        ensures { (result ≡ opened cfg (length ring.old)) × (ring.new ≡ opened_ring cfg ring.old) }
    {
        let words = ring_words(cfg);
        let session = idle_session(cfg);
        if ring.len() < words {
            return Opened {
                answer: Err(IsoRefusal::ShortBuffer),
                session,
            };
        }
        if is_bad_config(cfg) {
            return Opened {
                answer: Err(IsoRefusal::BadRecord),
                session,
            };
        }
        clear_ring(ring, words);
        Opened {
            answer: Ok(()),
            session,
        }
    }
}

// Two words a slot.
pub fn ring_words(cfg: IsoConfig) -> usize
    ensures { (result ≡ ring_words cfg) × (result ≤ 512) }
{
    usize::from(iso_ring_size(cfg.speed)) * 2
}

pub(crate) fn clear_ring(ring: &mut [u32], words: usize)
    requires { words ≤ length ring.old }
    ensures { ring.new ≡ cleared words ring.old }
{
    ring[..words].fill(0);
}

// The first words zero; a ring that has fewer stays as it was.
pub fn clear_first(ring: &mut [u32], words: usize)
    ensures { ring.new ≡ cond (ltb (length ring.old) words) ring.old (cleared words ring.old) }
{
    if ring.len() >= words {
        clear_ring(ring, words);
    }
}

fn idle_session(cfg: IsoConfig) -> IsoChannelState
    ensures { result ≡ idle_session cfg }
{
    IsoChannelState {
        cfg,
        head: IsoHead {
            next_request_id: 1,
            live: false,
            td_last: 0,
            start_full_frame: 0,
            done: 0,
            count: 0,
        },
        fatal: None,
        requests: [blank_request(); 64],
        plans: [blank_plan(); 1024],
    }
}
