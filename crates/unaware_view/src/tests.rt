//! One text of many speakers.
ghost use Rattle.std.specs.Prelude.{◌≡◌, ◌<◌, ◌≤◌, length};
ghost use Rattle.mixer_spec.specs.Setups.{IsRoom};
ghost use Rattle.unaware_view.specs.Standing.{legs_of, next_ask};

use crate::Composer;
use mixer_places::Slots;
use mixer_spec::limits::LONGEST_LABEL;
use rtt_base::limits::MOST_TEXT_OCTETS;
use rtt_base::{Chunk, Name, Text};
use std::alloc::Global;
use std::test::Fail;

fn name(text: &str) -> Name {
    let mut name = Name::new();
    for c in text.chars() {
        if name.len() + c.len_utf8() <= Name::CAPACITY {
            name.push(c);
        }
    }
    name
}

/// What this leg has typed, if anything, waits at each other one.
fn offer(slots: &mut Slots, source: u8, text: &str) -> Result<(), Fail>
    requires { source < length slots.old }
    ensures { length slots.new ≡ length slots.old }
{
    if text.is_empty() {
        return Ok(());
    }
    let mut chunk = Chunk {
        source,
        ready: 0,
        text: Text::new(),
    };
    chunk.text.append(text.as_bytes())?;
    slots.offer(&chunk)?;
    Ok(())
}

/// A step of a talk at Ann's terminal.
enum Step<'a> {
    /// Bob types this.
    Bob(&'a str),
    /// At this media time, where text may be given or not, this is given, or nothing.
    Gives(u64, bool, &'a str),
}

/// Whether this is given at this media time, or nothing. The next ask is not before `least`.
fn is_given(
    ann: &mut Composer,
    least: &mut u64,
    media: u64,
    due: bool,
    names: &[Name],
    slots: &mut Slots,
    given: &str,
) -> bool
    requires slots { length slots.old ≡ legs_of ann.old }
    requires names { length names.now ≡ legs_of ann.old }
    requires rises { next_ask ann.old ≤ least.old }
    ensures slots { length slots.new ≡ length slots.old }
    ensures legs { legs_of ann.new ≡ legs_of ann.old }
    ensures rises { next_ask ann.new ≤ least.new }
{
    if media < *least || media >= 100_000 {
        return false;
    }
    *least = media + 1;
    let mut text = Text::new();
    let gave = ann.turn(media, due, names, slots, &mut text);
    gave != given.is_empty() && text.as_slice() == given.as_bytes()
}

/// Whether each step is as it says.
fn are_so(
    steps: &[Step<'_>],
    ann: &mut Composer,
    least: &mut u64,
    names: &[Name],
    slots: &mut Slots,
) -> Result<bool, Fail>
    requires bob { 1 < length slots.old }
    requires slots { length slots.old ≡ legs_of ann.old }
    requires names { length names.now ≡ legs_of ann.old }
    requires rises { next_ask ann.old ≤ least.old }
{
    match steps {
        [step, rest @ ..] => match step {
            Step::Bob(typed) => {
                offer(slots, 1, typed)?;
                are_so(rest, ann, least, names, slots)
            }
            Step::Gives(media, due, given) => {
                if !is_given(ann, least, *media, *due, names, slots, given) {
                    return Ok(false);
                }
                are_so(rest, ann, least, names, slots)
            }
        },
        [] => Ok(true),
    }
}

/// Whether the talk goes so at Ann's terminal, before which Bob and Cy typed these, where a run is labelled again after so many
/// milliseconds, or never.
fn goes_so(
    alloc: Global,
    relabel: Option<u32>,
    bob: &str,
    cy: &str,
    steps: &[Step<'_>],
) -> Result<bool, Fail> {
    goes_so_within(alloc, MOST_TEXT_OCTETS, relabel, bob, cy, steps)
}

/// Whether it goes so where a text has so many octets at most.
fn goes_so_within(
    alloc: Global,
    room: usize,
    relabel: Option<u32>,
    bob: &str,
    cy: &str,
    steps: &[Step<'_>],
) -> Result<bool, Fail>
    requires { IsRoom room }
{
    let names = [name("Ann"), name("Bob"), name("Cy")];
    let mut slots = Slots::new(alloc, 3)?;
    let mut ann = Composer::new(alloc, 3, 0, room, relabel)?;
    offer(&mut slots, 1, bob)?;
    offer(&mut slots, 2, cy)?;
    let mut least = 0;
    are_so(steps, &mut ann, &mut least, &names, &mut slots)
}

const SENTENCE: [Step<'static>; 4] = [
    Step::Gives(0, true, "[Bob] Hi. "),
    Step::Gives(150, false, ""),
    Step::Gives(300, true, "\u{2028}[Cy] yes"),
    Step::Gives(600, true, ""),
];

const IN_MID_SENTENCE: [Step<'static>; 3] = [
    Step::Gives(0, true, "[Bob] Hi"),
    Step::Gives(1999, true, ""),
    Step::Gives(2000, true, "\u{2028}[Cy] yes"),
];

const BELL_ALONE: [Step<'static>; 3] = [
    Step::Gives(0, true, "\u{7}"),
    Step::Gives(1999, true, ""),
    Step::Gives(2000, true, "[Cy] Hi"),
];

#[test]
fn another_one_follows_a_sentence_or_two_seconds(rt: HostRuntime) -> Result<(), Fail> {
    assert!(rt; goes_so(rt.alloc(), None, "Hi. ", "yes", &SENTENCE)?);
    assert!(rt; goes_so(rt.alloc(), None, "Hi", "yes", &IN_MID_SENTENCE)?);
    assert!(rt; goes_so(rt.alloc(), None, "\u{7}", "Hi", &BELL_ALONE)?);
    Ok(())
}

const ERASURE: [Step<'static>; 4] = [
    Step::Gives(0, true, "[Bob] Hi. "),
    Step::Bob("\u{8}"),
    Step::Gives(300, true, "\u{2028}[Cy] yes. "),
    Step::Gives(600, true, "\u{2028}[Bob] X"),
];

const LABEL_LATER: [Step<'static>; 3] = [
    Step::Gives(0, true, "\u{7}"),
    Step::Bob("Hi"),
    Step::Gives(300, true, "[Bob] Hi"),
];

#[test]
fn an_erasure_stays_in_its_run_and_a_label_comes_later(rt: HostRuntime) -> Result<(), Fail> {
    assert!(rt; goes_so(rt.alloc(), None, "Hi. ", "yes. ", &ERASURE)?);
    assert!(rt; goes_so(rt.alloc(), None, "\u{7}", "", &LABEL_LATER)?);
    Ok(())
}

/// What Bob types while nobody else does, where his run is labelled again after seven seconds.
const AGAIN: [Step<'static>; 5] = [
    Step::Gives(0, true, "[Bob] Yes"),
    Step::Bob("No"),
    Step::Gives(6999, true, "No"),
    Step::Bob("Well"),
    Step::Gives(13_999, true, "\u{2028}[Bob] Well"),
];

const NEVER_AGAIN: [Step<'static>; 3] = [
    Step::Gives(0, true, "[Bob] Yes"),
    Step::Bob("No"),
    Step::Gives(99_999, true, "No"),
];

#[test]
fn a_run_is_labelled_again_where_that_is_asked_for(rt: HostRuntime) -> Result<(), Fail> {
    assert!(rt; goes_so(rt.alloc(), Some(7000), "Yes", "", &AGAIN)?);
    assert!(rt; goes_so(rt.alloc(), None, "Yes", "", &NEVER_AGAIN)?);
    Ok(())
}

/// What Bob types goes beside his label, or behind it.
const BESIDE: [Step<'static>; 1] = [Step::Gives(0, true, "[Bob] These 29 octets go beside it.")];

const BEHIND: [Step<'static>; 3] = [
    Step::Gives(0, true, "[Bob] "),
    Step::Gives(300, true, "These 30 octets come behind it"),
    Step::Gives(600, true, ""),
];

#[test]
fn a_text_has_no_more_octets_than_its_room(rt: HostRuntime) -> Result<(), Fail> {
    let beside = "These 29 octets go beside it.";
    let behind = "These 30 octets come behind it";
    assert!(rt; goes_so_within(rt.alloc(), LONGEST_LABEL, None, beside, "", &BESIDE)?);
    assert!(rt; goes_so_within(rt.alloc(), LONGEST_LABEL, None, behind, "", &BEHIND)?);
    Ok(())
}

/// What is given at an ask of a leg that typed this, behind what another one typed.
fn given(rt: &HostRuntime, before: &str, typed: &str, expected: &str) -> Result<bool, Fail> {
    let names = [name("Ann"), name("Bob"), name("Cy")];
    let mut slots = Slots::new(rt.alloc(), 3)?;
    let mut ann = Composer::new(rt.alloc(), 3, 0, MOST_TEXT_OCTETS, None)?;
    let mut text = Text::new();
    offer(&mut slots, 1, before)?;
    offer(&mut slots, 2, typed)?;
    let first = ann.turn(0, true, &names, &mut slots, &mut text);
    let second = ann.turn(300, true, &names, &mut slots, &mut text);
    Ok(first && second && text.as_slice() == expected.as_bytes())
}

/// Whether each of these is given as it stands behind it, where another one typed the first text.
fn all_given(rt: &HostRuntime, cases: &[(&str, &str, &str)]) -> Result<usize, Fail> {
    match cases {
        [(before, typed, expected), rest @ ..] => {
            if !given(rt, before, typed, expected)? {
                return Ok(0);
            }
            let more = all_given(rt, rest)?;
            Ok(more.saturating_add(1))
        }
        [] => Ok(0),
    }
}

const CASES: [(&str, &str, &str); 17] = [
    // the label stands before what is seen, on a line of its own
    ("Hello. ", "\u{2028}Hi", "\u{2028}[Cy] Hi"),
    ("Hello.\n", "\u{7}\0Hi", "\u{7}\0[Cy] Hi"),
    ("Hello. ", "\u{7}Hi", "\u{7}\u{2028}[Cy] Hi"),
    // a new line ahead of it may be taken back, and an erasure more is seen
    ("Hello. ", "\n\u{8}Hi", "\n\u{8}\u{2028}[Cy] Hi"),
    ("Hello. ", "\n\u{8}\u{8}", "\n\u{8}\u{2028}[Cy] X"),
    // behind it all is counted afresh
    ("Hello. ", "\nH\u{8}\u{8}", "\n[Cy] H\u{8}X"),
    // no erasure passes a marker or takes it back, and a marker is seen
    (
        "Hello. ",
        "10\u{fffd}2\u{8}\u{8}15",
        "\u{2028}[Cy] 10\u{fffd}2\u{8}X15",
    ),
    ("Hello.\n", "\n\u{fffd}\u{8}", "\n[Cy] \u{fffd}X"),
    // an LF behind another's CR is a part of that one's new line
    ("Hello.\r", "\n\u{8}", "\n[Cy] X"),
    ("Hello.\n", "\n\u{8}H", "\n\u{8}\u{2028}[Cy] H"),
    // no bracket is sent but a label's
    ("Hello. ", "[Bob] Hi", "\u{2028}[Cy] (Bob) Hi"),
    (
        "Hello. ",
        "\n[\u{ff3b}\u{ff3d}]x",
        "\n[Cy] (\u{ff08}\u{ff09})x",
    ),
    // directions are left out, and their neighbours are not
    (
        "Hello. ",
        "\u{202e}]\u{202c}Bob] Hi",
        "\u{2028}[Cy] )Bob) Hi",
    ),
    (
        "Hello. ",
        "\u{202a}\u{202f}\u{2065}\u{2066}\u{206a}\u{200f}\u{2069}",
        "\u{2028}[Cy] \u{202f}\u{2065}\u{206a}\u{200f}",
    ),
    // so no erasure is for one, and a sentence may end before one
    ("Hello. ", "a\u{2067}\u{8}\u{8}b", "\u{2028}[Cy] a\u{8}Xb"),
    ("Hello. \u{2069}", "Hi", "\u{2028}[Cy] Hi"),
    // sentences of other scripts end too
    ("\u{597d}\u{3002}", "\"Hi.\" ", "\u{2028}[Cy] \"Hi.\" "),
];

#[test]
fn labels_stand_before_what_is_seen(rt: HostRuntime) -> Result<(), Fail> {
    assert_eq!(rt; all_given(&rt, &CASES)?, CASES.len());
    Ok(())
}
