// The sum that stands for many words: from 1 on, sum × 65,537 + half modulo the prime 2^47 − 115, for each half of a word, the low one
// first; a byte is a half of its own.
ghost use Rattle.std.specs.Prelude.{◌<◌};

const PRIME: u64 = 140_737_488_355_213;

#[derive(Clone, Copy)]
pub(crate) struct Sum {
    value: u64,
    ghost below: { value < 140737488355213 },
}

impl Sum {
    fn half(self, half: u16) -> Sum {
        Sum {
            value: (self.value * 65_537 + u64::from(half)) % PRIME,
        }
    }
}

// What a sum takes in, half by half.
pub(crate) trait Halves: Copy {
    fn added_to(self, sum: Sum) -> Sum;
}

impl Halves for u8 {
    fn added_to(self, sum: Sum) -> Sum {
        sum.half(u16::from(self))
    }
}

impl Halves for u32 {
    fn added_to(self, sum: Sum) -> Sum {
        sum.half((self % 65_536) as u16)
            .half((self / 65_536) as u16)
    }
}

impl Halves for u64 {
    fn added_to(self, sum: Sum) -> Sum {
        let low = (self % 4_294_967_296) as u32;
        let high = (self / 4_294_967_296) as u32;
        high.added_to(low.added_to(sum))
    }
}

pub(crate) fn digest_of<T: Halves>(items: &[T]) -> u64
    ensures { result < 140737488355213 }
{
    items
        .iter()
        .fold(Sum { value: 1 }, |sum, item| item.added_to(sum))
        .value
}
