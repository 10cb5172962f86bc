//! Numbers that a seed gives, by SplitMix64 (Steele, Lea and Flood, 2014).
ghost use Rattle.std.specs.Prelude.{◌<◌};

#[derive(Clone, Copy)]
pub(crate) struct Random {
    state: u64,
}

impl Random {
    pub(crate) fn new(seed: u64) -> Random {
        Random { state: seed }
    }

    /// The next number.
    pub(crate) fn number(&mut self) -> u64 {
        self.state = self.state.wrapping_add(0x9e37_79b9_7f4a_7c15);
        let first = (self.state ^ (self.state >> 30)).wrapping_mul(0xbf58_476d_1ce4_e5b9);
        let second = (first ^ (first >> 27)).wrapping_mul(0x94d0_49bb_1331_11eb);
        second ^ (second >> 31)
    }

    /// The next number below a bound.
    pub(crate) fn below(&mut self, bound: usize) -> usize
        requires { 0 < bound }
        ensures { result < bound }
    {
        (self.number() % bound as u64) as usize
    }

    /// The next byte.
    pub(crate) fn byte(&mut self) -> u8 {
        (self.number() % 256) as u8
    }
}

/// Puts these into an order that is drawn (Fisher and Yates, 1938).
pub(crate) fn shuffle<T: Copy>(order: &mut [T], random: &mut Random) {
    for at in 0..order.len() {
        let other = random.below(at + 1);
        order.swap(at, other);
    }
}
