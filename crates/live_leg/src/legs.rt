//! A leg.
ghost use Rattle.std.specs.Prelude.{◌≡◌, true, false};
ghost use Rattle.receiver.specs.Hears.{IsGiving, is_finished, is_quiet};
ghost use Rattle.live_leg.specs.States.{is_going};
ghost use Rattle.live_leg.specs.declared.states.State.TheVariants.{Idle};

use crate::senders::Senders;
use crate::settings::LegSettings;
use crate::states::State;
use crate::tallies::LegTally;
use receiver::Ear;
use rtt_base::Packet;

/// A leg over what comes.
#[derive(Drop)]
pub struct Leg<A> {
    /// What it was asked for.
    pub(crate) settings: LegSettings,
    /// Hears the sender.
    pub(crate) ear: Ear,
    pub(crate) senders: Senders,
    /// What came, counted.
    pub(crate) tally: LegTally,
    pub(crate) arrivals: A,
    /// The datagram that came last.
    pub(crate) packet: Box<Packet>,
    pub(crate) state: State,
    /// The moment of the last take.
    pub(crate) at: u64,
    ghost giving: { ∥ IsGiving ear ∥₁ },
    ghost quiet: { state ≡ Idle → is_quiet ear ≡ true },
    ghost open_still: { is_going state ≡ true → is_finished ear ≡ false },
}
