//! What a take of a link tells an ear.
ghost use Rattle.std.specs.Prelude.{◌≡◌, ◌≢◌, ◌<◌, ◌^◌, true, false, unwrap_or};
ghost use Rattle.rtt_base.specs.declared.limits.TheConstants.{END_OF_MOMENTS, MOST_ARRIVALS};
ghost use Rattle.receiver.specs.Hears.{IsGiving, arrival_count, is_finished, is_quiet};
ghost use Rattle.live_leg.specs.States.{is_giving, is_going};
ghost use Rattle.live_leg.specs.Stories.{BeginsWith, HearsSent, state_of_sent};
ghost use Rattle.live_leg.specs.Taking.{HearsTaken};
ghost use Rattle.live_leg.specs.Tallies.{CountsTaken};

use crate::senders::{DatagramSender, Senders};
use crate::states::State;
use crate::tallies::LegTally;
use link_io::{Came, LinkTake};
use receiver::Ear;

/// Lets an ear begin anew with the first packet of this SSRC, which comes at `now`.
pub(crate) fn begin_with(ear: &mut Ear, ssrc: u32, now: u64, octets: &[u8])
    requires giving { ∥ IsGiving ear.old ∥₁ }
    requires early { now < END_OF_MOMENTS }
    ensures begins { BeginsWith ear.old ear.new ssrc now octets.now }
    ensures giving { ∥ IsGiving ear.new ∥₁ }
    ensures open { is_finished ear.new ≡ false }
{
    ear.restart(ssrc);
    let _refused = ear.hear(now, octets);
}

/// Tells an ear of a datagram that was sent so. Where one takes over from another, nothing of that one is waited for any longer.
fn hear_sent(ear: &mut Ear, sent: DatagramSender, senders: &Senders, octets: &[u8]) -> State
    requires giving { ∥ IsGiving ear.old ∥₁ }
    requires quiet { is_quiet ear.old ≡ true }
    requires few { arrival_count ear.old < MOST_ARRIVALS }
    requires open { is_finished ear.old ≡ false }
    ensures hears { HearsSent sent ear.old ear.new (unwrap_or senders.now.sender 0) senders.now.moment octets.now }
    ensures state { result ≡ state_of_sent sent }
    ensures giving { ∥ IsGiving ear.new ∥₁ }
    ensures gives { is_giving result ≡ true }
    ensures open { is_going result ≡ true → is_finished ear.new ≡ false }
{
    match sent {
        DatagramSender::Refused | DatagramSender::Foreign => State::Giving,
        DatagramSender::Sender => {
            let _refused = ear.hear(senders.moment(), octets);
            State::Giving
        }
        DatagramSender::First => {
            begin_with(ear, senders.ssrc(), senders.moment(), octets);
            State::Giving
        }
        DatagramSender::Other => {
            ear.finish();
            State::Parting
        }
    }
}

/// Tells an ear what a take of a link gave, and counts it; these are the octets of a datagram. How far the leg is then is handed
/// out.
pub(crate) fn hear_taken(
    ear: &mut Ear,
    senders: &mut Senders,
    tally: &mut LegTally,
    taken: LinkTake,
    octets: &[u8],
) -> State
    requires giving { ∥ IsGiving ear.old ∥₁ }
    requires early { taken.at < 2 ^ 48 }
    requires quiet { is_quiet ear.old ≡ true }
    requires few { arrival_count ear.old < MOST_ARRIVALS }
    requires open { is_finished ear.old ≡ false }
    ensures hears { HearsTaken ear.old ear.new senders.old senders.new taken octets.now result }
    ensures counts { CountsTaken senders.old tally.old tally.new taken octets.now }
    ensures giving { ∥ IsGiving ear.new ∥₁ }
    ensures busy { result ≢ State.Idle }
    ensures gives { is_giving result ≡ true }
    ensures open { is_going result ≡ true → is_finished ear.new ≡ false }
{
    match taken.came {
        Came::Datagram => {
            let sent = senders.meet(taken.at, octets);
            tally.count(sent);
            hear_sent(ear, sent, senders, octets)
        }
        Came::Large => {
            tally.refuse();
            senders.pass(taken.at);
            ear.expire(taken.at);
            State::Giving
        }
        Came::Quiet => {
            senders.pass(taken.at);
            ear.expire(taken.at);
            State::Blank
        }
        Came::Closed => {
            ear.finish();
            State::Ending
        }
    }
}
