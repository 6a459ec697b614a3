//! Numbers drawn one after another.
ghost use Rattle.std.specs.Prelude.{◌≡◌, ℕ, ◌<◌};
ghost use Rattle.command_spec.specs.Draws.{draw, next};

use std::marker::Model;

const MULTIPLIER: u64 = 1_103_515_245;

const INCREMENT: u64 = 12_345;

const STATES: u64 = 1 << 31;

/// How many states in a row give the same quotient: the low bits of a state repeat soon.
const LOW: u32 = 65_536;

/// A linear congruential generator. What it gives depends on the number alone that it began with. Contracts see its
/// state.
#[derive(Debug, Drop)]
pub(crate) struct Draws {
    state: u32,
}

impl Model for Draws {
    ghost Value = { ℕ };

    ghost view = { λ d. d.state };
}

/// The state after this one.
#[tactic(auto, unfolding(command_spec::specs::Draws::next))]
fn after(state: u32) -> u32
    ensures { result ≡ next state }
{
    ((u64::from(state) * MULTIPLIER + INCREMENT) % STATES) as u32
}

impl Draws {
    pub fn new(number: u32) -> Draws
        ensures { result ≡ number }
    {
        Draws { state: number }
    }

    /// A number below `bound`.
    #[tactic(auto, unfolding(command_spec::specs::Draws::draw))]
    pub fn draw(&mut self, bound: u32) -> u32
        requires { 0 < bound }
        ensures drawn { draw bound self.old ≡ (result, self.new) }
        ensures below { result < bound }
    {
        self.state = after(self.state);
        self.state / LOW % bound
    }
}
