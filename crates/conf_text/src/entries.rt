//! The lines of a conference.
ghost use Rattle.std.specs.Prelude.{◌≡◌, ◌∷◌, IfOk};
ghost use Rattle.file_spec.specs.Conference.{entry, counts_or_other, mixer, mixer_of, follow_or_service, of_form, setting, stay_or_plan, time_or_other};
ghost use Rattle.conf_text.specs.Lines.{above_of, meaning, seen, texts_of, MayFollow};

use crate::ConfKind;
use crate::drafts::{Draft, LineEntry};
use crate::follow_lines::read_follow;
use crate::leg_lines::{has_ssrc, read_leg};
use crate::long_lines::read_long;
use crate::plan_lines::read_plan;
use crate::service_lines::{read_counts, read_service};
use crate::stay_lines::{read_generations, read_stay};
use file_spec::limits::{
    LEAST_MTU, LEAST_RELABEL, LEAST_SPACING, LEAST_TICK, MOST_MTU, MOST_RELABEL, MOST_SPACING,
    MOST_TICK, MOST_TURNS,
};
use file_spec::{Form, MixerLine};
use rtt_base::limits::LONGEST_WAIT;
use script_text::{number_from, number_of};

/// What a line says, or why it is refused.
type EntryResult<'a> = Result<LineEntry<'a>, ConfKind>;

/// The number of a line that says one, from the words after the first.
pub(crate) fn read_setting(
    least: u32,
    most: u32,
    above: Option<u32>,
    words: &[&str],
) -> Result<u32, ConfKind>
    ensures { result ≡ setting least most above (texts_of words.now) }
{
    let [text] = words else {
        return Err(ConfKind::Count);
    };
    let value = number_from(text, least, most).ok_or(ConfKind::Number)?;
    if above.is_some() {
        return Err(ConfKind::Twice);
    }
    Ok(value)
}

#[tactic(auto, unfolding(file_spec::specs::Conference::mixer_of))]
fn read_stream(above: &Draft, ssrc: &str, seq: &str, timestamp: &str) -> Result<MixerLine, ConfKind>
    ensures { result ≡ mixer_of (above_of above.now) ssrc.now seq.now timestamp.now }
{
    let ssrc = number_of(ssrc, u32::MAX).ok_or(ConfKind::Number)?;
    let seq = number_of(seq, 65_535).ok_or(ConfKind::Number)?;
    let timestamp = number_of(timestamp, u32::MAX).ok_or(ConfKind::Number)?;
    if above.mixer.is_some() {
        return Err(ConfKind::Twice);
    }
    if has_ssrc(above.legs.as_slice(), ssrc) {
        return Err(ConfKind::Clash);
    }
    Ok(MixerLine {
        ssrc,
        seq: seq as u16,
        timestamp,
    })
}

fn read_mixer(above: &Draft, words: &[&str]) -> Result<MixerLine, ConfKind>
    ensures { result ≡ mixer (above_of above.now) (texts_of words.now) }
{
    match words {
        [ssrc, seq, timestamp] => read_stream(above, ssrc, seq, timestamp),
        _ => Err(ConfKind::Count),
    }
}

#[tactic(auto, unfolding(file_spec::specs::Conference::stay_or_plan))]
fn read_stay_or_plan<'a>(above: &Draft, word: &str, words: &[&str]) -> EntryResult<'a>
    ensures exact { seen meaning result ≡ stay_or_plan (above_of above.now) word.now (texts_of words.now) }
    ensures follows { IfOk result (λ said. MayFollow (above_of above.now) (meaning said)) }
{
    match word {
        "stay" => Ok(LineEntry::Stays(read_stay(above, words)?)),
        other => Ok(LineEntry::Plan(read_plan(above, other, words)?)),
    }
}

#[tactic(auto, unfolding(file_spec::specs::Conference::follow_or_service))]
fn read_follow_or_service<'a>(above: &Draft, word: &str, words: &[&str]) -> EntryResult<'a>
    ensures exact { seen meaning result ≡ follow_or_service (above_of above.now) word.now (texts_of words.now) }
    ensures follows { IfOk result (λ said. MayFollow (above_of above.now) (meaning said)) }
{
    match word {
        "follow" => Ok(LineEntry::Follows(read_follow(above, words)?)),
        other => Ok(LineEntry::Serves(read_service(above, other, words)?)),
    }
}

fn read_of_form<'a>(form: Form, above: &Draft, word: &str, words: &[&str]) -> EntryResult<'a>
    ensures exact { seen meaning result ≡ of_form form (above_of above.now) word.now (texts_of words.now) }
    ensures follows { IfOk result (λ said. MayFollow (above_of above.now) (meaning said)) }
{
    match form {
        Form::Files => read_stay_or_plan(above, word, words),
        Form::Links => read_follow_or_service(above, word, words),
    }
}

fn read_counts_or_other<'a>(
    form: Form,
    above: &Draft,
    word: &str,
    words: &[&str],
) -> EntryResult<'a>
    ensures exact { seen meaning result ≡ counts_or_other form (above_of above.now) word.now (texts_of words.now) }
    ensures follows { IfOk result (λ said. MayFollow (above_of above.now) (meaning said)) }
{
    match word {
        "counts" => Ok(LineEntry::Serves(read_counts(above, words)?)),
        "long" => Ok(LineEntry::Longs(read_long(above, words)?)),
        other => read_of_form(form, above, other, words),
    }
}

#[tactic(auto, unfolding(file_spec::specs::Conference::time_or_other))]
fn read_time_or_other<'a>(form: Form, above: &Draft, word: &str, words: &[&str]) -> EntryResult<'a>
    ensures exact { seen meaning result ≡ time_or_other form (above_of above.now) word.now (texts_of words.now) }
    ensures follows { IfOk result (λ said. MayFollow (above_of above.now) (meaning said)) }
{
    match word {
        "tick" => Ok(LineEntry::Tick(read_setting(LEAST_TICK, MOST_TICK, above.tick, words)?)),
        "spacing" => Ok(LineEntry::Spacing(read_setting(
            LEAST_SPACING,
            MOST_SPACING,
            above.spacing,
            words,
        )?)),
        "wait" => Ok(LineEntry::Wait(read_setting(0, LONGEST_WAIT, above.wait, words)?)),
        "turns" => Ok(LineEntry::Turns(read_setting(1, MOST_TURNS, above.turns, words)?)),
        "relabel" => Ok(LineEntry::Relabel(read_setting(
            LEAST_RELABEL,
            MOST_RELABEL,
            above.relabel,
            words,
        )?)),
        "mtu" => Ok(LineEntry::Mtu(read_setting(LEAST_MTU, MOST_MTU, above.mtu, words)?)),
        other => read_counts_or_other(form, above, other, words),
    }
}

#[tactic(auto, unfolding(file_spec::specs::Conference::entry))]
fn read_worded<'a>(
    form: Form,
    above: &Draft,
    line: u32,
    word: &str,
    words: &[&'a str],
) -> EntryResult<'a>
    ensures exact { seen meaning result ≡ entry form (above_of above.now) line (word.now ∷ texts_of words.now) }
    ensures follows { IfOk result (λ said. MayFollow (above_of above.now) (meaning said)) }
{
    match word {
        "leg" => Ok(LineEntry::Leg(read_leg(form, above, line, words)?)),
        "mixer" => Ok(LineEntry::Mixer(read_mixer(above, words)?)),
        "gens" => Ok(LineEntry::Generations(read_generations(above, words)?)),
        other => read_time_or_other(form, above, other, words),
    }
}

/// What the words of a line say.
#[tactic(auto, unfolding(file_spec::specs::Conference::entry))]
pub(crate) fn read_entry<'a>(
    form: Form,
    above: &Draft,
    line: u32,
    words: &[&'a str],
) -> EntryResult<'a>
    ensures exact { seen meaning result ≡ entry form (above_of above.now) line (texts_of words.now) }
    ensures follows { IfOk result (λ said. MayFollow (above_of above.now) (meaning said)) }
{
    let [word, more @ ..] = words else {
        return Err(ConfKind::Word);
    };
    read_worded(form, above, line, word, more)
}
