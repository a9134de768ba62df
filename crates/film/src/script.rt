// What is played: four runs, each on an endpoint that is opened for it.
use ring::Speed;
use session::IsoMode;

// Submit packets at a frame reading, so many, with so many words that may be stored; the controller serves a slot and leaves a status
// word; collect a request; recover.
#[derive(Clone, Copy)]
pub(crate) enum Act {
    Submit(u32, u16, u32),
    Serve(u16, u32),
    Collect(u64),
    Recover,
}

#[derive(Clone, Copy)]
pub(crate) struct Run {
    pub speed: Speed,
    pub interval: u16,
    pub mode: IsoMode,
    pub acts: [Act; 7],
}

// Every word may be stored.
const ALL: u32 = 2048;

// P8, with one word more each time.
pub(crate) const WORD_BY_WORD: Run = Run {
    speed: Speed::High,
    interval: 8,
    mode: IsoMode::Compatible,
    acts: [
        Act::Submit(16, 3, 0),
        Act::Submit(16, 3, 1),
        Act::Submit(16, 3, 2),
        Act::Submit(16, 3, 3),
        Act::Submit(16, 3, 4),
        Act::Submit(16, 3, 5),
        Act::Submit(16, 3, 6),
    ],
};

// P6, in both modes. Of slot 10's 192 bytes 92 remain.
pub(crate) const COMPATIBLE: Run = Run {
    speed: Speed::Full,
    interval: 1,
    mode: IsoMode::Compatible,
    acts: [
        Act::Submit(8, 2, ALL),
        Act::Serve(10, 92),
        Act::Serve(11, 0),
        Act::Submit(71, 2, ALL),
        Act::Collect(1),
        Act::Collect(2),
        Act::Recover,
    ],
};

pub(crate) const GUARDED: Run = Run {
    speed: Speed::Full,
    interval: 1,
    mode: IsoMode::Guarded,
    acts: [
        Act::Submit(8, 2, ALL),
        Act::Serve(10, 92),
        Act::Serve(11, 0),
        Act::Submit(71, 2, ALL),
        Act::Collect(1),
        Act::Submit(71, 2, ALL),
        Act::Recover,
    ],
};

pub(crate) const CUT_SHORT: Run = Run {
    speed: Speed::Full,
    interval: 1,
    mode: IsoMode::Guarded,
    acts: [
        Act::Submit(8, 3, ALL),
        Act::Serve(10, 0),
        Act::Submit(8, 4, 5),
        Act::Recover,
        Act::Collect(1),
        Act::Submit(8, 4, ALL),
        Act::Submit(8, 4, ALL),
    ],
};
