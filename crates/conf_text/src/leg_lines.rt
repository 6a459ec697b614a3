//! The lines of legs.
ghost use Rattle.std.specs.Prelude.{◌≡◌, ◌==◌, ◌<◌, ◌||◌, length, IfSome, OnOk, Some};
ghost use Rattle.std.specs.List.{list_any};
ghost use Rattle.file_spec.specs.Conference.{clashes, has_names, has_port, is_mixers, is_operators, leg, most_legs, new_leg, port, is_same_port, shares_own, shares_path};
ghost use Rattle.file_spec.specs.Sound.{IsBetween};
ghost use Rattle.conf_text.specs.Lines.{above_of, leg_line, leg_said, seen, texts_of};

use crate::ConfKind;
use crate::drafts::{Draft, NewLeg};
use crate::names::{awareness, names_leg, names_path};
use file_spec::limits::{MOST_LEGS, MOST_LINKS, USUAL_RED, USUAL_T140};
use file_spec::{Form, LegLine, MixerLine, OperatorLine, has_name, name_of};
use rtt_base::PayloadTypes;
use script_text::{number_from, number_of, payload_types_of};

/// The payload types of a leg that names none.
const USUAL_TYPES: PayloadTypes = PayloadTypes {
    t140: USUAL_T140,
    red: USUAL_RED,
};

/// The words of a leg, without its payload types.
#[derive(Clone, Copy)]
struct LegWords<'a> {
    name: &'a str,
    mode: &'a str,
    ssrc: &'a str,
    input: &'a str,
    output: &'a str,
}

fn are_named(form: Form, words: &LegWords<'_>) -> bool
    ensures { result ≡ has_names form words.now.name.now words.now.input.now words.now.output.now }
{
    names_leg(words.name)
        && (form == Form::Links || names_path(words.input))
        && names_path(words.output)
}

/// The port at which a link hears.
pub(crate) fn port_of(input: &str) -> Option<u32>
    ensures value { result ≡ port input.now }
    ensures fits { IfSome result (λ n. IsBetween 1 65535 n) }
{
    number_from(input, 1, 65_535)
}

fn is_heard(form: Form, input: &str) -> bool
    ensures { result ≡ has_port form input.now }
{
    form == Form::Files || port_of(input).is_some()
}

fn share_port(above: Option<u32>, port: Option<u32>) -> bool
    ensures { result ≡ is_same_port above port }
{
    match (above, port) {
        (Some(above), Some(port)) => above == port,
        _ => false,
    }
}

fn share_path(form: Form, above: &LegLine, leg: &NewLeg<'_>) -> bool
    ensures { result ≡ shares_path form above.now (leg_line leg.now) }
{
    if above.output.as_str() == leg.output {
        return true;
    }
    match form {
        Form::Files => above.input.as_str() == leg.output || above.output.as_str() == leg.input,
        Form::Links => share_port(port_of(above.input.as_str()), port_of(leg.input)),
    }
}

fn share_own(form: Form, leg: &NewLeg<'_>) -> bool
    ensures { result ≡ shares_own form (leg_line leg.now) }
{
    leg.payload_types.t140 == leg.payload_types.red
        || form == Form::Files && leg.output == leg.input
}

fn has_mixer(mixer: &Option<MixerLine>, ssrc: u32) -> bool
    ensures { result ≡ is_mixers mixer.now ssrc }
{
    match mixer {
        Some(line) => line.ssrc == ssrc,
        None => false,
    }
}

fn has_operator(operator: &Option<OperatorLine>, port: Option<u32>) -> bool
    ensures { result ≡ is_operators operator.now port }
{
    match operator {
        Some(line) => share_port(Some(u32::from(line.port)), port),
        None => false,
    }
}

/// Whether one of the legs hears at this port.
pub(crate) fn hears_at(legs: &[LegLine], number: u32) -> bool
    ensures { result ≡ list_any (λ leg. is_same_port (Some number) (port leg.input)) legs.now }
{
    legs.iter().any(|leg| share_port(Some(number), port_of(leg.input.as_str())))
}

pub(crate) fn has_ssrc(legs: &[LegLine], ssrc: u32) -> bool
    ensures { result ≡ list_any (λ a. a.ssrc == ssrc) legs.now }
{
    legs.iter().any(|above| above.ssrc == ssrc)
}

fn share_paths(form: Form, legs: &[LegLine], leg: &NewLeg<'_>) -> bool
    ensures { result ≡ list_any (λ a. shares_path form a (leg_line leg.now)) legs.now }
{
    legs.iter().any(|above| share_path(form, above, leg))
}

/// Whether the leg wants a path or a port that another leg has, or the port of an operator.
fn is_taken(form: Form, above: &Draft, leg: &NewLeg<'_>) -> bool
    ensures { result ≡ (list_any (λ a. shares_path form a (leg_line leg.now)) above.now.legs
        || is_operators above.now.service.operator (port leg.now.input.now)) }
{
    share_paths(form, above.legs.as_slice(), leg)
        || has_operator(&above.service.operator, port_of(leg.input))
}

fn does_clash(form: Form, above: &Draft, leg: &NewLeg<'_>) -> bool
    ensures { result ≡ clashes form (above_of above.now) (leg_line leg.now) }
{
    let legs = above.legs.as_slice();
    has_ssrc(legs, leg.ssrc)
        || has_mixer(&above.mixer, leg.ssrc)
        || share_own(form, leg)
        || is_taken(form, above, leg)
}

fn seats(form: Form) -> usize
    ensures { result ≡ most_legs form }
{
    match form {
        Form::Files => MOST_LEGS,
        Form::Links => MOST_LINKS,
    }
}

fn join<'a>(form: Form, above: &Draft, leg: NewLeg<'a>) -> Result<NewLeg<'a>, ConfKind>
    ensures exact { seen leg_line result ≡ new_leg form (above_of above.now) (leg_line leg.entry) }
    ensures seat { OnOk result (length above.now.legs < MOST_LEGS) }
{
    if above.legs.len() >= seats(form) {
        return Err(ConfKind::Many);
    }
    if has_name(above.legs.as_slice(), leg.name.as_str()) {
        return Err(ConfKind::Twice);
    }
    if does_clash(form, above, &leg) {
        return Err(ConfKind::Clash);
    }
    Ok(leg)
}

#[tactic(auto, unfolding(file_spec::specs::Conference::leg_of))]
fn read_words<'a>(
    form: Form,
    above: &Draft,
    line: u32,
    words: &LegWords<'a>,
    payload_types: Option<PayloadTypes>,
) -> Result<NewLeg<'a>, ConfKind>
    ensures exact { seen leg_line result ≡ leg_said form above.now line words.now payload_types }
    ensures seat { OnOk result (length above.now.legs < MOST_LEGS) }
{
    let aware = awareness(words.mode).ok_or(ConfKind::Word)?;
    if !are_named(form, words) {
        return Err(ConfKind::Name);
    }
    let ssrc = number_of(words.ssrc, u32::MAX).ok_or(ConfKind::Number)?;
    if !is_heard(form, words.input) {
        return Err(ConfKind::Number);
    }
    let payload_types = payload_types.ok_or(ConfKind::Number)?;
    let leg = NewLeg {
        line,
        name: name_of(words.name),
        aware,
        ssrc,
        input: words.input,
        output: words.output,
        payload_types,
    };
    join(form, above, leg)
}

/// The leg of a line, from the words after the first.
pub(crate) fn read_leg<'a>(
    form: Form,
    above: &Draft,
    line: u32,
    words: &[&'a str],
) -> Result<NewLeg<'a>, ConfKind>
    ensures exact { seen leg_line result ≡ leg form (above_of above.now) line (texts_of words.now) }
    ensures seat { OnOk result (length above.now.legs < MOST_LEGS) }
{
    let [name, mode, ssrc, input, output, types @ ..] = words else {
        return Err(ConfKind::Count);
    };
    let payload_types = match types {
        [] => Some(USUAL_TYPES),
        [t140, red] => payload_types_of(t140, red),
        _ => return Err(ConfKind::Count),
    };
    let words = LegWords {
        name,
        mode,
        ssrc,
        input,
        output,
    };
    read_words(form, above, line, &words, payload_types)
}
