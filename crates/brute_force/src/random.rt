ghost use Rattle.std.specs.Prelude.{◌<◌};

// A linear congruential generator. What it gives depends on its seed alone.
#[derive(Drop)]
pub struct Random {
    state: u64,
}

impl Random {
    pub(crate) fn new(seed: u64) -> Random {
        Random { state: seed }
    }

    // A number below a bound, by the upper bits of the state: the lower ones come round soon.
    pub(crate) fn below(&mut self, bound: u64) -> u64
        requires { 0 < bound }
        ensures { result < bound }
    {
        self.state = self
            .state
            .wrapping_mul(6364136223846793005)
            .wrapping_add(1442695040888963407);
        (self.state >> 33) % bound
    }

    // Yes once in so many times.
    pub(crate) fn once_in(&mut self, times: u64) -> bool
        requires { 0 < times }
    {
        self.below(times) == 0
    }
}
