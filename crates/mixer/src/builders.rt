//! What a mixer is made of.
ghost use Rattle.std.specs.Prelude.{◌≡◌, ◌<◌, ◌≤◌, IfOk, length, map};
ghost use Rattle.std.specs.Option.{ForSome};
ghost use Rattle.mixer_spec.specs.Rooms.{room_within};
ghost use Rattle.mixer_spec.specs.Setups.{IsRoom, Setup, setup};
ghost use Rattle.mixer_spec.specs.Table.{empty};
ghost use Rattle.mixer_places.specs.SlotStanding as slots;
ghost use Rattle.file_spec.specs.Conferences.{meaning_of};
ghost use Rattle.file_spec.specs.Kept.{IsMtu};
ghost use Rattle.file_spec.specs.Speakers.{AreNamed};
ghost use Rattle.mixer.specs.Making.{AreMade, IsMade};
ghost use Rattle.file_spec.specs.declared.limits.TheConstants.{MOST_GENERATIONS};

use file_spec::{Conference, LegLine, name_of};
use mixer_places::Slots;
use rtt_base::limits::MOST_TEXT_OCTETS;
use rtt_base::{Name, NoMemory};
use std::alloc::Global;
use terminal_scheduler::TerminalScheduler;

/// The name of each leg.
pub fn names_of(alloc: Global, legs: &[LegLine]) -> Result<Vec<Name>, NoMemory>
    requires { AreNamed legs.now }
    ensures { IfOk result (λ v. v.items ≡ map (λ leg. leg.name) legs.now) }
{
    let mut names = Vec::with_capacity(alloc, legs.len())?;
    for leg in legs {
        names.push(name_of(leg.name.as_str()))?;
    }
    Ok(names)
}

/// Nothing waits, and nobody listens.
pub fn silent_slots(alloc: Global, legs: usize) -> Result<Slots, NoMemory>
    ensures legs { IfOk result (λ v. length v ≡ legs) }
    ensures stands { IfOk result (λ v. (s : Setup) → s.legs ≡ legs → slots.SlotsStandFor s v empty) }
{
    let mut slots = Slots::new(alloc, legs)?;
    for leg in 0..legs {
        slots.listen(leg, false);
    }
    Ok(slots)
}

/// How many octets each text may have to a terminal to which so many are repeated, where a packet has at most so many, if that
/// is said.
fn room_of(mtu: Option<u32>, generations: u8) -> usize
    requires mtu { ForSome mtu (λ n. IsMtu n) }
    requires few { generations ≤ MOST_GENERATIONS }
    ensures value { result ≡ room_within mtu generations }
    ensures room { IsRoom result }
{
    let Some(most) = mtu else {
        return MOST_TEXT_OCTETS;
    };
    let repeats = usize::from(generations);
    let texts = most as usize - (17 + 4 * repeats);
    MOST_TEXT_OCTETS.min(texts / (repeats + 1))
}

/// The terminal_scheduler of the terminal of the leg with this number.
fn scheduler_of(
    alloc: Global,
    conference: &Conference,
    own: usize,
) -> Result<TerminalScheduler, NoMemory>
    requires { own < length conference.now.legs }
    ensures { IfOk result (λ o. IsMade (meaning_of conference.now) own o) }
{
    let leg = &conference.legs.as_slice()[own];
    let room = room_of(conference.mtu, leg.generations);
    TerminalScheduler::new(
        alloc,
        leg.aware,
        leg.generations,
        conference.legs.len(),
        own,
        room,
        conference.spacing,
        conference.relabel,
    )
}

/// The terminal_scheduler of each leg's terminal.
pub fn schedulers_of(
    alloc: Global,
    conference: &Conference,
) -> Result<Vec<TerminalScheduler>, NoMemory>
    ensures { IfOk result (λ v. AreMade (meaning_of conference.now) v.items) }
{
    let mut schedulers = Vec::with_capacity(alloc, conference.legs.len())?;
    for own in 0..conference.legs.len() {
        let scheduler = scheduler_of(alloc, conference, own)?;
        schedulers.push(scheduler)?;
    }
    Ok(schedulers)
}
