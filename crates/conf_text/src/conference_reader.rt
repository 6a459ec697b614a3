//! Reads conferences.
ghost use Rattle.std.specs.Prelude.{◌≡◌, ◌==◌, ◌||◌, IfOk, IfErr, OnOk};
ghost use Rattle.std.specs.List.{list_all};
ghost use Rattle.file_spec.specs.Lines.{words};
ghost use Rattle.file_spec.specs.Conference.{complete, conference_from, is_blank};
ghost use Rattle.file_spec.specs.Kept.{Keeps};
ghost use Rattle.script_text.specs.Causes.{IsCause, IsCauseAt};
ghost use Rattle.file_spec.specs.Conferences.{meaning_of};
ghost use Rattle.conf_text.specs.Lines.{above_of, texts_of, with_line};

use crate::crowds::has_crowd;
use crate::drafts::Draft;
use crate::entries::read_entry;
use crate::{ConfFault, ConfKind};
use file_spec::limits::{
    FEWEST_LEGS, MOST_CONFERENCE_OCTETS, MOST_TURNS, USUAL_SPACING, USUAL_TICK,
};
use file_spec::{Conference, Form};
use rtt_base::NoMemory;
use rtt_base::limits::USUAL_WAIT;
use script_text::{next_line, says_nothing, text_of};
use std::alloc::Global;

fn all_spaces(line: &[u8]) -> bool
    ensures { result ≡ list_all (λ c. c == 32) line.now }
{
    line.iter().all(|octet| *octet == b' ')
}

fn is_passed_over(line: &[u8]) -> bool
    ensures { result ≡ is_blank line.now }
{
    all_spaces(line) || says_nothing(line)
}

/// The words of a line: what stands between its spaces.
fn words_of(alloc: Global, line: &str) -> Result<Vec<&str>, NoMemory>
    ensures { IfOk result (λ v. texts_of v.items ≡ words line.now) }
{
    match line
        .split(' ')
        .filter(|word| !word.is_empty())
        .collect(alloc)
    {
        Ok(words) => Ok(words),
        Err(_) => Err(NoMemory),
    }
}

fn read_line(
    alloc: Global,
    form: Form,
    draft: &mut Draft,
    line: u32,
    octets: &[u8],
) -> Result<(), ConfFault>
    ensures ok { OnOk result (with_line form draft.old line octets.now ≡ Ok (above_of draft.new)) }
    ensures err { IfErr result (λ fault. IsCauseAt line fault (with_line form draft.old line octets.now)) }
{
    let Some(text) = text_of(octets) else {
        return Err(ConfFault::Refused {
            line,
            kind: ConfKind::NotText,
        });
    };
    let words = words_of(alloc, text)?;
    match read_entry(form, draft, line, words.as_slice()) {
        Ok(said) => draft.add(alloc, said)?,
        Err(kind) => return Err(ConfFault::Refused { line, kind }),
    }
    Ok(())
}

fn finish(draft: Draft, line: u32) -> Result<Conference, ConfFault>
    requires { Keeps (above_of draft) }
    ensures ok { IfOk result (λ c. complete (above_of draft) draft.mixer ≡ Ok (meaning_of c)) }
    ensures err { IfErr result (λ fault. IsCauseAt line fault (complete (above_of draft) draft.mixer)) }
{
    let few = ConfFault::Refused {
        line,
        kind: ConfKind::Few,
    };
    let Some(mixer) = draft.mixer else {
        return Err(few);
    };
    if draft.legs.len() < FEWEST_LEGS {
        return Err(few);
    }
    if has_crowd(draft.legs.as_slice()) {
        return Err(ConfFault::Refused {
            line,
            kind: ConfKind::Crowd,
        });
    }
    Ok(Conference {
        legs: draft.legs,
        tick: draft.tick.unwrap_or(USUAL_TICK),
        spacing: draft.spacing.unwrap_or(USUAL_SPACING),
        wait: draft.wait.unwrap_or(USUAL_WAIT),
        turns: draft.turns.unwrap_or(MOST_TURNS),
        relabel: draft.relabel,
        mtu: draft.mtu,
        mixer,
        plan: draft.plan,
        service: draft.service,
    })
}

/// Reads a conference, whose legs are recordings in files or links to the outside.
pub fn read_conf(alloc: Global, bytes: &[u8], form: Form) -> Result<Conference, ConfFault>
    ensures value { IfOk result (λ c. conference_from form bytes.now ≡ Ok (meaning_of c)) }
    ensures refused { IfErr result (λ fault. IsCause fault (conference_from form bytes.now)) }
{
    if bytes.len() > MOST_CONFERENCE_OCTETS {
        return Err(ConfFault::Refused {
            line: 0,
            kind: ConfKind::Large,
        });
    }
    let mut draft = Draft::new(alloc);
    let mut number = 0;
    let mut rest = bytes;
    while let Some((line, after)) = next_line(rest) {
        rest = after;
        number += 1;
        if !is_passed_over(line) {
            read_line(alloc, form, &mut draft, number, line)?;
        }
    }
    finish(draft, number + 1)
}
