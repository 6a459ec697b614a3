//! A turn of all terminals.
ghost use Rattle.std.specs.Prelude.{◌≡◌, ℕ, ◌+◌, ◌^◌, ◌<◌, ◌≤◌, IfSome, length, map};
ghost use Rattle.mixer_spec.specs.Rounds.{count_below};
ghost use Rattle.mixer_spec.specs.Setups.{Setup};
ghost use Rattle.mixer_spec.specs.Table.{Table, next_media};
ghost use Rattle.mixer_places.specs.Places.{has_place};
ghost use Rattle.terminal_scheduler.specs.Schedulers.{IsTurned, OfTurns, SameLeg, legs_of, next_turn, sources_of};
ghost use Rattle.mixer.specs.Posts.{ArePosts, KeepsPosts};
ghost use Rattle.mixer.specs.Turns.{AreSchedulersOf, IsPut, LegMayTurn, LegTurned, OfMixers, Reaches, AllTurned};
ghost use Rattle.rtt_base.specs.declared.limits.TheConstants.{END_OF_MOMENTS};

use crate::batches::{Batch, Post};
use mixer_places::{SeatingPlan, Slots};
use mixer_spec::limits::PLACES;
use rtt_base::Name;
use terminal_scheduler::TerminalScheduler;

/// The most that media time rises by in a turn, in milliseconds (profile).
const STEP: u64 = 200;

/// One turn of the terminal of this leg, which holds a place. The answer is the source whose text is sent, if one is; the rest of
/// what is sent is put into `post`.
fn turn_into(
    post: &mut Post,
    leg: usize,
    media: u64,
    scheduler: &mut TerminalScheduler,
    names: &[Name],
    seating: &SeatingPlan,
    slots: &mut Slots,
) -> Option<usize>
    requires slots { length slots.old ≡ legs_of scheduler.old }
    requires names { length names.now ≡ legs_of scheduler.old }
    requires seating { length seating.now.legs ≡ legs_of scheduler.old }
    requires rises { next_turn scheduler.old ≤ media }
    requires media { media < END_OF_MOMENTS }
    ensures terminal { post.new.terminal ≡ leg }
    ensures media { post.new.media ≡ media }
    ensures turned { OfTurns scheduler.old seating.now slots.old names.now media (λ s j table now.
        IsTurned s j table now media scheduler.new slots.new result post.new.text) }
    ensures within { IfSome result (λ source. source < sources_of scheduler.old) }
    ensures slots { length slots.new ≡ length slots.old }
    ensures same { SameLeg scheduler.old scheduler.new }
    ensures next { next_turn scheduler.new ≤ media + 1 }
{
    post.terminal = leg;
    post.media = media;
    scheduler.turn(media, names, seating, slots, &mut post.text)
}

impl Batch {
    /// One turn of the terminal of this leg, which holds a place: what it sends, if anything, comes behind the others.
    fn turn_seated(
        &mut self,
        leg: usize,
        media: u64,
        scheduler: &mut TerminalScheduler,
        names: &[Name],
        seating: &SeatingPlan,
        slots: &mut Slots,
    )
        requires room { length self.old < PLACES }
        requires slots { length slots.old ≡ legs_of scheduler.old }
        requires names { length names.now ≡ legs_of scheduler.old }
        requires seating { length seating.now.legs ≡ legs_of scheduler.old }
        requires rises { next_turn scheduler.old ≤ media }
        requires media { media < END_OF_MOMENTS }
        ensures put { OfTurns scheduler.old seating.now slots.old names.now media (λ s j table now.
            IsPut s j leg table now media scheduler.new slots.new self.old self.new) }
        ensures posts { KeepsPosts leg (sources_of scheduler.old) self.old self.new }
        ensures few { length self.new ≤ length self.old + 1 }
        ensures slots { length slots.new ≡ length slots.old }
        ensures same { SameLeg scheduler.old scheduler.new }
        ensures next { next_turn scheduler.new ≤ media + 1 }
    {
        let len = self.len;
        let sent = turn_into(
            &mut self.places[len],
            leg,
            media,
            scheduler,
            names,
            seating,
            slots,
        );
        if let Some(source) = sent {
            self.places[len].source = source;
            self.len = len + 1;
        }
    }

    /// One turn of the terminal of this leg, where it holds a place.
    fn turn_leg(
        &mut self,
        leg: usize,
        media: u64,
        scheduler: &mut TerminalScheduler,
        names: &[Name],
        seating: &SeatingPlan,
        slots: &mut Slots,
    )
        requires leg { leg < length seating.now.legs }
        requires room { length self.old ≤ count_below (has_place seating.now) leg }
        requires slots { length slots.old ≡ legs_of scheduler.old }
        requires names { length names.now ≡ legs_of scheduler.old }
        requires seating { length seating.now.legs ≡ legs_of scheduler.old }
        requires rises { next_turn scheduler.old ≤ media }
        requires media { media < END_OF_MOMENTS }
        ensures turned { (s : Setup) (table : Table) (now : ℕ)
            → LegMayTurn s table now media leg scheduler.old seating.now names.now
            → Reaches s table now media leg slots.old self.old
            → LegTurned s table now media leg scheduler.new slots.new self.new }
        ensures posts { KeepsPosts leg (sources_of scheduler.old) self.old self.new }
        ensures few { length self.new ≤ count_below (has_place seating.now) (leg + 1) }
        ensures slots { length slots.new ≡ length slots.old }
        ensures same { SameLeg scheduler.old scheduler.new }
        ensures next { next_turn scheduler.new ≤ media + 1 }
    {
        if seating.is_seated(leg) {
            self.turn_seated(leg, media, scheduler, names, seating, slots);
        }
    }
}

/// A turn of all terminals at this media time, in milliseconds, in leg order. What is sent is put into the batch, which is
/// cleared first.
pub(crate) fn turn_legs(
    schedulers: &mut [TerminalScheduler],
    media: u64,
    names: &[Name],
    seating: &SeatingPlan,
    slots: &mut Slots,
    batch: &mut Batch,
)
    requires schedulers { AreSchedulersOf (length schedulers.old) media schedulers.old }
    requires slots { length slots.old ≡ length schedulers.old }
    requires names { length names.now ≡ length schedulers.old }
    requires seating { length seating.now.legs ≡ length schedulers.old }
    requires media { media < END_OF_MOMENTS }
    ensures turned { OfMixers schedulers.old seating.now slots.old names.now media (λ s table now.
        AllTurned s table now media schedulers.new slots.new batch.new) }
    ensures posts { ArePosts (map sources_of schedulers.old) batch.new }
    ensures sources { map sources_of schedulers.new ≡ map sources_of schedulers.old }
    ensures schedulers { AreSchedulersOf (length schedulers.old) (media + 1) schedulers.new }
    ensures legs { length schedulers.new ≡ length schedulers.old }
    ensures slots { length slots.new ≡ length slots.old }
{
    batch.clear();
    for leg in 0..schedulers.len() {
        batch.turn_leg(leg, media, &mut schedulers[leg], names, seating, slots);
    }
}

/// The media time of a turn at the moment `now` after one at the media time `last`, in milliseconds.
pub(crate) fn next_media(last: Option<u64>, now: u64) -> u64
    requires { IfSome last (λ t. t < 2 ^ 62) }
    ensures { result ≡ next_media 200 last now }
{
    match last {
        None => now,
        Some(last) => (last + 1).max(now.min(last + STEP)),
    }
}
