// The numbers of a line, and the judgement on the answers to it.
ghost use Rattle.std.specs.Prelude.{◌≡◌, ℕ, ◌<◌, ◌≤◌, length, ◌≢◌, slice_index, slice_set};

// The number at a place; behind the end, 0.
pub(crate) fn nth(numbers: &[u64], at: usize) -> u64
    ensures { result ≡ slice_index numbers.now at }
{
    numbers.get(at).copied().unwrap_or(0)
}

// Stores at a place and answers the place behind; where there is no room, the place itself.
pub(crate) fn put(numbers: &mut [u64], at: usize, value: u64) -> usize
    ensures { numbers.new ≡ slice_set numbers.old at value }
{
    if at < numbers.len() {
        numbers[at] = value;
        return at + 1;
    }
    at
}

// The place of the first answer that is another than the listed one, what is listed, and what was answered.
#[derive(Clone, Copy)]
pub(crate) struct Difference {
    pub place: usize,
    pub listed: u64,
    pub said: u64,
}

pub(crate) type Verdict = Result<(), Difference>;

// A line's numbers, how many they are, and how many of them stand before its colon. Behind them stand those of the lines before it.
#[derive(Clone, Copy)]
pub(crate) struct Line<'a> {
    pub numbers: &'a [u64],
    pub count: usize,
    pub inputs: usize,
}

// A call takes the low bits of a number. One generic method would want a trait with three impls, for byte, half and word.
impl Line<'_> {
    pub(crate) fn number(&self, at: usize) -> u64 {
        nth(self.numbers, at)
    }

    pub(crate) fn byte(&self, at: usize) -> u8 {
        (self.number(at) & 0xff) as u8
    }

    pub(crate) fn half(&self, at: usize) -> u16 {
        (self.number(at) & 0xffff) as u16
    }

    pub(crate) fn word(&self, at: usize) -> u32 {
        (self.number(at) & 0xffff_ffff) as u32
    }

    // The answers listed stand behind the inputs, and are as many as were given.
    pub(crate) fn judge(&self, said: &[u64]) -> Verdict {
        let answers = self.numbers.get(self.inputs..).unwrap_or(&[]);
        let place = first_other(answers, said);
        if place == said.len() && self.inputs.wrapping_add(place) == self.count {
            return Ok(());
        }
        Err(Difference {
            place,
            listed: nth(answers, place),
            said: nth(said, place),
        })
    }
}

// The place of the first answer that is not the one listed, or their count where all are the same.
fn first_other(listed: &[u64], said: &[u64]) -> usize
    ensures within { result ≤ length said.now }
    ensures same { (k : ℕ) → k < result → slice_index listed.now k ≡ slice_index said.now k }
    ensures other { result < length said.now → slice_index listed.now result ≢ slice_index said.now result }
{
    for (i, number) in said.iter().enumerate() {
        if nth(listed, i) != *number {
            return i;
        }
    }
    said.len()
}
