use std::io;
use std::time::Instant;

// How many turns a batch has. Few, so that some batch is not interrupted.
const TURNS: u64 = 5;

// What a piece of work answered, and how many nanoseconds a turn took in the fastest batch so far: whatever else the machine does only makes
// a batch slower.
#[derive(Clone, Copy)]
pub struct Timing {
    answer: usize,
    pub best: u128,
}

impl Timing {
    pub fn new() -> Timing {
        Timing {
            answer: 0,
            best: u128::MAX,
        }
    }

    // Does the work in one more batch.
    pub fn batch<F: FnMut() -> usize>(&mut self, rt: &HostRuntime, work: &mut F) -> io::Result<()>
        requires { F.IsAlwaysCallable work.old }
        ensures { F.IsAlwaysCallable work.new }
    {
        let start = Instant::now(rt)?;
        for _ in 0..TURNS {
            self.answer = work();
        }
        let turn = start.elapsed(rt)?.as_nanos() / u128::from(TURNS);
        self.best = self.best.min(turn);
        Ok(())
    }

    // The answer is told so that no work can be left out.
    pub fn tell(&self, rt: &HostRuntime, what: &str) -> io::Result<()> {
        let Timing { answer, best } = self;
        eprintln!(rt; "{best} ns: {what}")?;
        println!(rt; "{answer} {what}")
    }
}
