//! Where the challenges of a run come from.

ghost use Rattle.std.specs.Prelude.{◌≡◌, IfErr};
ghost use Rattle.rand_core.specs.Stream.{fill_bytes};
ghost use Rattle.dist_run_hosts.specs.declared.run_error.RunError.TheVariants.{NoRandomBytes};

use crate::run_error::RunError;
use dist_drive::Draws;
use rand::make_rng;
use rand::rngs::StdRng;
use rand_core::{Rng, SeedableRng};
use std::random::RandomSource;

/// Challenges, drawn from a generator that the operating system's randomness seeded, or that such a one seeded. Nothing
/// promises that they are hard to guess.
#[derive(Drop)]
pub struct Challenges {
    /// What gives them.
    pub generator: StdRng,
}

impl Challenges {
    /// The challenges that this generator gives.
    pub fn new(generator: StdRng) -> Challenges
        ensures { result.generator ≡ generator }
    {
        Challenges { generator }
    }

    /// The challenges of a generator that the operating system's randomness seeds.
    pub fn of_system<R: RandomSource>(rt: &R) -> Result<Challenges, RunError>
        ensures { IfErr result (λ error. error ≡ NoRandomBytes) }
    {
        match make_rng::<StdRng, R>(rt) {
            Ok(generator) => Ok(Challenges::new(generator)),
            Err(_) => Err(RunError::NoRandomBytes),
        }
    }

    /// Challenges of their own, seeded by the next 32 bytes that these give.
    pub fn fork(&mut self) -> Challenges
        ensures seeded { result.generator ≡ ⟦<StdRng as SeedableRng>⟧.of_seed (fill_bytes 32 (⟦<StdRng as Rng>⟧.stream self.old.generator)).0 }
        ensures rest { ⟦<StdRng as Rng>⟧.stream self.new.generator ≡ (fill_bytes 32 (⟦<StdRng as Rng>⟧.stream self.old.generator)).1 }
    {
        Challenges {
            generator: StdRng::from_rng(&mut self.generator),
        }
    }
}

impl Draws for Challenges {
    ghost use Rattle.std.specs.Prelude.{◌≡◌};
    ghost use Rattle.rand_core.specs.Stream.{next_u32};

    // the next word of the generator's stream
    ghost gives = { λ before number after. (number, ⟦<StdRng as Rng>⟧.stream after.generator)
        ≡ next_u32 (⟦<StdRng as Rng>⟧.stream before.generator) };

    fn draw(&mut self) -> u32 {
        self.generator.next_u32()
    }
}
