//! Turns in which nothing can happen.
ghost use Rattle.std.specs.Prelude.{◌≡◌, ◌+◌, ◌<◌, true, Some, length, map, slice_get};
ghost use Rattle.mixer_places.specs.Places.{has_place};
ghost use Rattle.terminal_scheduler.specs.declared.schedulers.TerminalScheduler.{TerminalScheduler};
ghost use Rattle.terminal_scheduler.specs.Schedulers.{IsCalmBefore, sources_of};
ghost use Rattle.mixer.specs.Calm.{AreCalmBefore};
ghost use Rattle.mixer.specs.Posts.{ArePosts};
ghost use Rattle.mixer.specs.Turns.{AreSchedulersOf, OfMixers, AllTurned};
ghost use Rattle.rtt_base.specs.declared.limits.TheConstants.{END_OF_MOMENTS};

use crate::batches::Batch;
use crate::turns::turn_legs;
use mixer_places::{SeatingPlan, Slots};
use rtt_base::Name;
use terminal_scheduler::TerminalScheduler;

/// Before this media time, in milliseconds, a turn changes nothing at the terminal of this leg, if no text comes: all times are
/// before it where the leg holds no place.
fn calm_at(schedulers: &[TerminalScheduler], seating: &SeatingPlan, leg: usize) -> u64
    requires leg { leg < length schedulers.now }
    requires seating { length seating.now.legs ≡ length schedulers.now }
    ensures { (o : TerminalScheduler) → slice_get schedulers.now leg ≡ Some o
        → has_place seating.now leg ≡ true → IsCalmBefore result o }
{
    if !seating.is_seated(leg) {
        return u64::MAX;
    }
    schedulers[leg].calm_until()
}

/// Before this media time, in milliseconds, a turn changes nothing at any terminal whose leg holds a place, if no text comes.
fn calm_until(schedulers: &[TerminalScheduler], seating: &SeatingPlan) -> u64
    requires { length seating.now.legs ≡ length schedulers.now }
    ensures { AreCalmBefore result seating.now schedulers.now }
{
    let mut until = u64::MAX;
    for leg in 0..schedulers.len() {
        until = until.min(calm_at(schedulers, seating, leg));
        if until == 0 {
            return 0;
        }
    }
    until
}

/// A turn of all terminals at this media time, in milliseconds, in leg order. What is sent is put into the batch, which is
/// cleared first. Answers a media time before which the next turns change nothing at any terminal.
#[inline(never)]
fn turn_all(
    schedulers: &mut [TerminalScheduler],
    media: u64,
    names: &[Name],
    seating: &SeatingPlan,
    slots: &mut Slots,
    batch: &mut Batch,
) -> u64
    requires schedulers { AreSchedulersOf (length schedulers.old) media schedulers.old }
    requires slots { length slots.old ≡ length schedulers.old }
    requires names { length names.now ≡ length schedulers.old }
    requires seating { length seating.now.legs ≡ length schedulers.old }
    requires media { media < END_OF_MOMENTS }
    ensures calm { AreCalmBefore result seating.now schedulers.new }
    ensures turned { OfMixers schedulers.old seating.now slots.old names.now media (λ s table now.
        AllTurned s table now media schedulers.new slots.new batch.new) }
    ensures posts { ArePosts (map sources_of schedulers.old) batch.new }
    ensures sources { map sources_of schedulers.new ≡ map sources_of schedulers.old }
    ensures schedulers { AreSchedulersOf (length schedulers.old) (media + 1) schedulers.new }
    ensures legs { length schedulers.new ≡ length schedulers.old }
    ensures slots { length slots.new ≡ length slots.old }
{
    turn_legs(schedulers, media, names, seating, slots, batch);
    // Of two legs who was just sent something may rest; of more another one is mostly due soon.
    if schedulers.len() > 2 && !batch.posts().is_empty() {
        return 0;
    }
    calm_until(schedulers, seating)
}

/// A turn of all terminals at this media time, in milliseconds, in leg order. What is sent is put into the batch, which is
/// cleared first. Before the media time `calm` a turn changes nothing at any terminal, and is a few stores; answers the next
/// such time.
pub(crate) fn turn_from(
    calm: u64,
    schedulers: &mut [TerminalScheduler],
    media: u64,
    names: &[Name],
    seating: &SeatingPlan,
    slots: &mut Slots,
    batch: &mut Batch,
) -> u64
    requires calm { AreCalmBefore calm seating.now schedulers.old }
    requires schedulers { AreSchedulersOf (length schedulers.old) media schedulers.old }
    requires slots { length slots.old ≡ length schedulers.old }
    requires names { length names.now ≡ length schedulers.old }
    requires seating { length seating.now.legs ≡ length schedulers.old }
    requires media { media < END_OF_MOMENTS }
    ensures calm { AreCalmBefore result seating.now schedulers.new }
    ensures turned { OfMixers schedulers.old seating.now slots.old names.now media (λ s table now.
        AllTurned s table now media schedulers.new slots.new batch.new) }
    ensures posts { ArePosts (map sources_of schedulers.old) batch.new }
    ensures sources { map sources_of schedulers.new ≡ map sources_of schedulers.old }
    ensures schedulers { AreSchedulersOf (length schedulers.old) (media + 1) schedulers.new }
    ensures legs { length schedulers.new ≡ length schedulers.old }
    ensures slots { length slots.new ≡ length slots.old }
{
    if media < calm {
        batch.clear();
        return calm;
    }
    turn_all(schedulers, media, names, seating, slots, batch)
}
