//! The lines of a plan.
ghost use Rattle.std.specs.Prelude.{◌≡◌};
ghost use Rattle.file_spec.specs.Conference.{delay, delay_of, plan, plan_of, plan_word};
ghost use Rattle.conf_text.specs.Lines.{above_of, texts_of};

use crate::ConfKind;
use crate::drafts::Draft;
use crate::stay_lines::leg_place;
use file_spec::limits::{LONGEST_DELAY, MOST_PLAN_LINES};
use file_spec::{PlanLine, What, is_planned};
use script_text::number_of;

#[tactic(auto, unfolding(file_spec::specs::Conference::plan_of))]
fn read_event(
    above: &Draft,
    name: &str,
    packet: &str,
    what: Option<What>,
) -> Result<PlanLine, ConfKind>
    ensures { result ≡ plan_of (above_of above.now) name.now packet.now what }
{
    let terminal = leg_place(above, name).ok_or(ConfKind::Name)?;
    let packet = number_of(packet, u32::MAX).ok_or(ConfKind::Number)?;
    let what = what.ok_or(ConfKind::Number)?;
    if above.plan.len() >= MOST_PLAN_LINES {
        return Err(ConfKind::PlanMany);
    }
    let line = PlanLine {
        terminal,
        packet,
        what,
    };
    if is_planned(above.plan.as_slice(), &line) {
        return Err(ConfKind::Twice);
    }
    Ok(line)
}

fn delay_from(text: &str) -> Option<What>
    ensures { result ≡ delay_of text.now }
{
    let late = number_of(text, LONGEST_DELAY)?;
    Some(What::Delay(late))
}

fn read_plain(above: &Draft, what: What, words: &[&str]) -> Result<PlanLine, ConfKind>
    ensures { result ≡ plan (above_of above.now) what (texts_of words.now) }
{
    match words {
        [name, packet] => read_event(above, name, packet, Some(what)),
        _ => Err(ConfKind::Count),
    }
}

fn read_delay(above: &Draft, words: &[&str]) -> Result<PlanLine, ConfKind>
    ensures { result ≡ delay (above_of above.now) (texts_of words.now) }
{
    match words {
        [name, packet, late] => read_event(above, name, packet, delay_from(late)),
        _ => Err(ConfKind::Count),
    }
}

/// The plan line of a line, from its first word and those after it.
pub(crate) fn read_plan(above: &Draft, word: &str, words: &[&str]) -> Result<PlanLine, ConfKind>
    ensures { result ≡ plan_word (above_of above.now) word.now (texts_of words.now) }
{
    match word {
        "lose" => read_plain(above, What::Lose, words),
        "delay" => read_delay(above, words),
        "twice" => read_plain(above, What::Twice, words),
        _ => Err(ConfKind::Word),
    }
}
