//! Names and leavings that inputs told, which are put into a conference.
ghost use Rattle.std.specs.Prelude.{◌≡◌, ◌+◌, ◌==◌, ◌<◌, Some, true, [], ◌∷◌, ◌++◌, length, if◌then◌else◌};
ghost use Rattle.std.specs.Str.{byte};
ghost use Rattle.file_spec.specs.Conference.{change_leg, is_name_octet};
ghost use Rattle.command_spec.specs.Attending.{as_name, is_free, left_so, named_so, told_legs, told_so, until_then};
ghost use Rattle.rtt_attend.specs.Heard.{said_of};
ghost use Rattle.rtt_attend.specs.Named.{says_in, shaped};

use crate::source_notes::SourceNotes;
use file_spec::limits::{LAST_MOMENT, LONGEST_NAME};
use file_spec::{LegLine, Legs, Stay, has_name, is_name_octet, set_name, set_stay};
use rtt_base::Name;
use wire_spec::SdesName;

/// `_` for a space.
fn without_space(octet: u8) -> u8
    ensures { result ≡ (if octet == byte " " then byte "_" else octet) }
{
    if octet == b' ' { b'_' } else { octet }
}

/// Appends an octet, where it may stand in a name, and answers whether it may.
fn push_octet(octet: u8, name: &mut Name) -> bool
    requires { length name.old < 32 }
    ensures letter { result ≡ is_name_octet octet }
    ensures name { result ≡ true → name.new ≡ name.old ++ octet ∷ [] }
{
    let letter = is_name_octet(octet);
    if letter {
        name.push(char::from(octet));
    }
    letter
}

/// The text with `_` for each space, where that has the shape of a leg's name.
fn name_from(text: &str) -> Option<Name>
    ensures { result ≡ shaped (as_name text.now) }
{
    if text.is_empty() || text.len() > LONGEST_NAME {
        return None;
    }
    let mut name = Name::new();
    for octet in text.as_bytes() {
        if !push_octet(without_space(*octet), &mut name) {
            return None;
        }
    }
    Some(name)
}

/// Whether no leg has this name.
fn is_free(legs: &[LegLine], name: &str) -> bool
    ensures { result ≡ is_free legs.now name.now }
{
    !has_name(legs, name)
}

/// The leg has this name, where it has the shape of one and no leg has it.
fn tell_text(legs: &mut Legs, leg: usize, text: &str)
    requires { leg < length legs.old }
    ensures { legs.new ≡ change_leg (named_so legs.old (Some text.now)) leg legs.old }
{
    let Some(name) = name_from(text) else {
        return;
    };
    if is_free(legs.as_slice(), name.as_str()) {
        set_name(legs, leg, name);
    }
}

/// The same where the leg's input tells a name.
fn tell_name(legs: &mut Legs, leg: usize, name: &Option<SdesName>)
    requires { leg < length legs.old }
    ensures { legs.new ≡ change_leg (named_so legs.old name.now) leg legs.old }
{
    if let Some(name) = name {
        tell_text(legs, leg, name.as_str());
    }
}

/// The stay, ended at this moment, where it has begun by then and no stay's end comes before that.
fn stay_until(stay: Stay, end: u64) -> Stay
    ensures { result ≡ until_then end stay }
{
    if u64::from(stay.from) >= end || end > u64::from(LAST_MOMENT) {
        return stay;
    }
    let until = match stay.until {
        Some(until) => until.min(end as u32),
        None => end as u32,
    };
    Stay {
        from: stay.from,
        until: Some(until),
    }
}

/// The end of a stay whose leg left at this moment: what was lost before is waited for.
fn end_of(at: u32, wait: u32) -> u64
    ensures { result ≡ at + wait + 1 }
{
    u64::from(at) + u64::from(wait) + 1
}

/// The leg left at this moment.
fn tell_end(legs: &mut Legs, leg: usize, wait: u32, at: u32)
    requires { leg < length legs.old }
    ensures { legs.new ≡ change_leg (left_so wait (Some at)) leg legs.old }
{
    let end = end_of(at, wait);
    let stay = stay_until(legs.as_slice()[leg].stay, end);
    set_stay(legs, leg, stay);
}

/// The same where the leg's input tells that it left.
fn tell_leaving(legs: &mut Legs, leg: usize, wait: u32, left: Option<u32>)
    requires { leg < length legs.old }
    ensures { legs.new ≡ change_leg (left_so wait left) leg legs.old }
{
    if let Some(at) = left {
        tell_end(legs, leg, wait, at);
    }
}

/// The leg is told what its input says.
fn tell_leg(legs: &mut Legs, leg: usize, wait: u32, said: &SourceNotes)
    requires { leg < length legs.old }
    ensures { legs.new ≡ change_leg (told_so wait (said_of said.now) legs.old) leg legs.old }
{
    tell_name(legs, leg, &said.name);
    tell_leaving(legs, leg, wait, said.left);
}

/// Each leg is told what its input says, in leg order.
pub(crate) fn tell_legs(legs: &mut Legs, wait: u32, said: &[SourceNotes])
    requires { length said.now ≡ length legs.old }
    ensures { legs.new ≡ told_legs wait (says_in said.now) (length legs.old) legs.old }
{
    for leg in 0..said.len() {
        tell_leg(legs, leg, wait, &said[leg]);
    }
}
