// Numbers that look random and are the same in every run.
ghost use Rattle.std.specs.Prelude.{◌<◌};

#[derive(Clone, Copy)]
pub struct Random {
    state: u32,
}

impl Random {
    pub fn new(seed: u32) -> Random {
        Random { state: seed }
    }

    // The xorshift of 32 bits; it never leaves 0, so 0 goes on with 1.
    pub fn number(&mut self) -> u32 {
        let mut x = self.state.max(1);
        x ^= x << 13;
        x ^= x >> 17;
        x ^= x << 5;
        self.state = x;
        x
    }

    // One below the limit, or 0.
    pub fn below(&mut self, limit: usize) -> usize
        ensures { 0 < limit → result < limit }
    {
        match self.number() as usize {
            number if limit > 0 => number % limit,
            _ => 0,
        }
    }

    // Once in so many times.
    pub fn once_in(&mut self, times: usize) -> bool {
        self.below(times) == 0
    }

    pub fn one_of(&mut self, words: &[&'static str]) -> &'static str {
        let i = self.below(words.len());
        words.get(i).copied().unwrap_or("")
    }
}
