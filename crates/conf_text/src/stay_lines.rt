//! The lines of generations and of stays.
ghost use Rattle.std.specs.Prelude.{◌≡◌, ◌<◌, ◌==◌, bytes_eq, length, IfOk, IfSome};
ghost use Rattle.std.specs.List.{list_any, position};
ghost use Rattle.file_spec.specs.Conference.{generations, generations_of, stay, stay_of};
ghost use Rattle.conf_text.specs.Lines.{above_of, texts_of};

use crate::ConfKind;
use crate::drafts::Draft;
use file_spec::limits::{LAST_MOMENT, MOST_GENERATIONS};
use file_spec::{GenerationsLine, LegLine, Stay, StayLine};
use script_text::number_of;

fn place_of(legs: &[LegLine], name: &str) -> Option<usize>
    ensures value { result ≡ position (λ l. bytes_eq l.name name.now) legs.now }
    ensures within { IfSome result (λ k. k < length legs.now) }
{
    legs.iter().position(|leg| leg.name.as_str() == name)
}

/// The leg above that has this name, counted from 0.
pub(crate) fn leg_place(above: &Draft, name: &str) -> Option<u8>
    ensures value { result ≡ position (λ l. bytes_eq l.name name.now) above.now.legs }
    ensures within { IfSome result (λ k. k < length above.now.legs) }
{
    match place_of(above.legs.as_slice(), name) {
        Some(place) => Some(place as u8),
        None => None,
    }
}

fn is_told(places: &[u8], place: u8) -> bool
    ensures { result ≡ list_any (λ other. other == place) places.now }
{
    places.iter().any(|other| *other == place)
}

#[tactic(auto, unfolding(file_spec::specs::Conference::generations_of))]
fn read_count(above: &Draft, name: &str, count: &str) -> Result<GenerationsLine, ConfKind>
    ensures exact { result ≡ generations_of (above_of above.now) name.now count.now }
    ensures place { IfOk result (λ line. line.leg < length above.now.legs) }
{
    let leg = leg_place(above, name).ok_or(ConfKind::Name)?;
    let generations = number_of(count, MOST_GENERATIONS).ok_or(ConfKind::Number)?;
    if is_told(above.generations.as_slice(), leg) {
        return Err(ConfKind::Twice);
    }
    Ok(GenerationsLine {
        leg,
        generations: generations as u8,
    })
}

/// The generations of a line, from the words after the first.
pub(crate) fn read_generations(above: &Draft, words: &[&str]) -> Result<GenerationsLine, ConfKind>
    ensures exact { result ≡ generations (above_of above.now) (texts_of words.now) }
    ensures place { IfOk result (λ line. line.leg < length above.now.legs) }
{
    match words {
        [name, count] => read_count(above, name, count),
        _ => Err(ConfKind::Count),
    }
}

#[tactic(auto, unfolding(file_spec::specs::Conference::stay_of))]
fn read_moments(above: &Draft, name: &str, from: &str, until: &str) -> Result<StayLine, ConfKind>
    ensures exact { result ≡ stay_of (above_of above.now) name.now from.now until.now }
    ensures place { IfOk result (λ line. line.leg < length above.now.legs) }
{
    let leg = leg_place(above, name).ok_or(ConfKind::Name)?;
    let from = number_of(from, LAST_MOMENT).ok_or(ConfKind::Number)?;
    let until = number_of(until, LAST_MOMENT).ok_or(ConfKind::Number)?;
    if until <= from {
        return Err(ConfKind::Number);
    }
    if is_told(above.stays.as_slice(), leg) {
        return Err(ConfKind::Twice);
    }
    let stay = Stay {
        from,
        until: Some(until),
    };
    Ok(StayLine { leg, stay })
}

/// The stay of a line, from the words after the first.
pub(crate) fn read_stay(above: &Draft, words: &[&str]) -> Result<StayLine, ConfKind>
    ensures exact { result ≡ stay (above_of above.now) (texts_of words.now) }
    ensures place { IfOk result (λ line. line.leg < length above.now.legs) }
{
    match words {
        [name, from, until] => read_moments(above, name, from, until),
        _ => Err(ConfKind::Count),
    }
}
