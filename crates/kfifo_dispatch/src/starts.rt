//! Where a worker's scans begin.
ghost use Rattle.std.specs.Prelude.{◌≡◌, ◌<◌, ◌≤◌, ◌+◌, ◌%◌, ◌^◌};
ghost use Rattle.rand_pcg.specs.Pcg.{pcg32};
ghost use Rattle.kfifo_dispatch.specs.Starts.{Draws, seeded};

use rand_core::SeedableRng;
use rand_core::utils::NextWord;
use rand_pcg::Pcg32;
use std::marker::Model;

/// The starts of a worker's calls, drawn one after the other: random slots of a segment, the same ones from the same
/// seed.
///
/// Clauses see it as k beside the generator.
#[derive(Drop)]
pub struct Starts {
    k: u32,
    generator: Pcg32,
}

impl Model for Starts {
    ghost Value = { Draws };

    ghost view = { λ s. record { k = s.k; generator = s.generator } };

    ghost invariant = { λ s. (1 ≤ s.k) × (s.k ≤ 64) };
}

impl Starts {
    /// The starts of a worker for segments of k slots, k from 1 to 64. The generator is PCG32, seeded by the sum of
    /// `seed` and `worker`, which wraps.
    pub fn new(seed: u64, worker: u32, k: u32) -> Starts
        requires { (1 ≤ k) × (k ≤ 64) }
        ensures { result ≡ record { k = k; generator = seeded ((seed + worker) % 2 ^ 64) } }
    {
        Starts {
            k,
            generator: Pcg32::seed_from_u64(seed.wrapping_add(u64::from(worker))),
        }
    }

    /// The next start, below k: the generator's next word modulo k.
    pub fn draw(&mut self) -> u32
        ensures start { result ≡ (pcg32 self.old.generator).0 % self.old.k }
        ensures below { result < self.old.k }
        ensures left { self.new ≡ record { k = self.old.k; generator = (pcg32 self.old.generator).1 } }
    {
        self.generator.next_word() % self.k
    }
}
