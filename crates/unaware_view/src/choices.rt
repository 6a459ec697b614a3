//! Who is given text at an ask.
ghost use Rattle.std.specs.Prelude.{◌≡◌, ℕ, ◌+◌, ◌-◌, ◌<◌, ◌≤◌, ◌&&◌, not, length, IfSome, Some};
ghost use Rattle.mixer_spec.specs.Rounds.{first_from, first_round};
ghost use Rattle.mixer_spec.specs.Composed.{is_ago, waits_here};
ghost use Rattle.mixer_places.specs.SlotStanding.{SlotsTell};
ghost use Rattle.unaware_view.specs.Choices.{any_long, any_other, is_leg, is_set, noted, since_at};

use mixer_places::Slots;

/// The first of the flags from `low` on, below `high`, that is set.
#[tactic(auto, using(crate::proofs::Firsts::first_here, crate::proofs::Firsts::first_later, crate::proofs::Firsts::first_none))]
fn first_from(flags: &[bool], low: usize, high: usize) -> Option<usize>
    requires order { low ≤ high }
    requires within { high ≤ length flags.now }
    ensures first { result ≡ first_from (is_set flags.now) low (high - low) }
    ensures within { IfSome result (λ i. i < high) }
{
    for i in low..high {
        if flags[i] {
            return Some(i);
        }
    }
    None
}

/// The first of the flags that is set, counted round from `start`.
pub(crate) fn first_round(flags: &[bool], start: usize) -> Option<usize>
    requires { start ≤ length flags.now }
    ensures first { result ≡ first_round (is_set flags.now) start (length flags.now) }
    ensures within { IfSome result (λ i. i < length flags.now) }
{
    match first_from(flags, start, flags.len()) {
        Some(i) => Some(i),
        None => first_from(flags, 0, start),
    }
}

/// Whether a flag is set besides the one at `own`.
#[tactic(auto, using(crate::proofs::Firsts::any_next))]
pub(crate) fn any_other(flags: &[bool], own: usize) -> bool
    ensures { result ≡ any_other flags.now own }
{
    for i in 0..flags.len() {
        if i != own && flags[i] {
            return true;
        }
    }
    false
}

/// Whether this moment was so many milliseconds ago, or earlier.
pub(crate) fn is_ago(ms: u64, now: u64, moment: Option<u64>) -> bool
    ensures { result ≡ is_ago ms now moment }
{
    match moment {
        Some(moment) => moment <= now && ms <= now - moment,
        None => false,
    }
}

/// Whether a flag is set besides the one at `own` whose moment was so long ago.
#[tactic(auto, using(crate::proofs::Firsts::any_next))]
pub(crate) fn any_long(flags: &[bool], since: &[Option<u64>], ms: u64, now: u64, own: usize) -> bool
    requires { length flags.now ≡ length since.now }
    ensures { result ≡ any_long flags.now since.now ms now own }
{
    for i in 0..flags.len() {
        if i != own && flags[i] && is_ago(ms, now, since[i]) {
            return true;
        }
    }
    false
}

/// Notes since when each leg waits behind an ask at this media time, where this one was given text.
pub(crate) fn note(since: &mut [Option<u64>], waits: &[bool], given: Option<usize>, media: u64)
    requires { length waits.now ≡ length since.old }
    ensures legs { length since.new ≡ length since.old }
    ensures noted { (i : ℕ) → i < length since.old
        → since_at since.new i ≡ noted media (is_leg i given) (is_set waits.now i) (since_at since.old i) }
{
    for i in 0..since.len() {
        if waits[i] && since[i].is_none() {
            since[i] = Some(media);
        }
    }
    if let Some(given) = given {
        if given < since.len() {
            since[given] = None;
        }
    }
}

/// Whether the leg waits at the terminal, and is another one than its own.
fn waits_here(own: usize, leg: usize, slots: &Slots) -> bool
    requires { (own < length slots.now) × (leg < length slots.now) }
    ensures { SlotsTell slots.now (λ s table. result ≡ waits_here own (table.terminals own).waits leg) }
{
    if leg == own {
        return false;
    }
    slots.has_waiting(own, leg)
}

/// Looks which legs wait at a terminal, but for its own.
pub(crate) fn look(waits: &mut [bool], own: usize, slots: &Slots)
    requires legs { length waits.old ≡ length slots.now }
    requires own { own < length slots.now }
    ensures legs { length waits.new ≡ length waits.old }
    ensures waits { SlotsTell slots.now (λ s table. (i : ℕ) → i < length waits.old
        → is_set waits.new i ≡ waits_here own (table.terminals own).waits i) }
{
    for i in 0..waits.len() {
        let here = waits_here(own, i, slots);
        waits[i] = here;
    }
}

/// Whether nothing waits of a speaker that was given text last so long ago.
pub(crate) fn is_paused(waits: bool, ms: u64, now: u64, given_at: u64) -> bool
    ensures { result ≡ (not waits && is_ago ms now (Some given_at)) }
{
    if waits {
        return false;
    }
    is_ago(ms, now, Some(given_at))
}
