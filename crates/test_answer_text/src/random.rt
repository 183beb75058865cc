// Numbers that a seed decides.

/// A linear congruential generator. Its high bits are used, since the low ones repeat soon.
#[derive(Drop)]
pub struct Random {
    state: u64,
}

impl Random {
    /// The generator of a seed.
    pub fn new(seed: u64) -> Random {
        let mut random = Random { state: seed };
        random.next();
        random
    }

    fn next(&mut self) -> u32 {
        self.state = self
            .state
            .wrapping_mul(6_364_136_223_846_793_005)
            .wrapping_add(1_442_695_040_888_963_407);
        (self.state >> 32) as u32
    }

    /// A number below a count, and 0 where the count is 0.
    pub fn below(&mut self, count: u32) -> u32 {
        self.next().checked_rem(count).unwrap_or(0)
    }

    // A place in a list of this length.
    fn place(&mut self, length: usize) -> usize {
        (self.next() as usize).checked_rem(length).unwrap_or(0)
    }

    /// One of the numbers, and 0 where there is none.
    pub fn number(&mut self, numbers: &[i64]) -> i64 {
        match numbers.get(self.place(numbers.len())) {
            Some(number) => *number,
            None => 0,
        }
    }

    /// One of the words, and the empty one where there is none.
    pub fn word(&mut self, words: &[&'static str]) -> &'static str {
        match words.get(self.place(words.len())) {
            Some(word) => *word,
            None => "",
        }
    }
}
