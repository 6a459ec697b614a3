//! The conference of a file is mixed over recordings.
ghost use Rattle.std.specs.Prelude.{◌≡◌};
ghost use Rattle.file_spec.specs.Conferences.{meaning_of};
ghost use Rattle.rtt_words.specs.Commands.{mixed};
ghost use Rattle.rtt_top.specs.Recorded.{MixingEndsAs, asked_as};
ghost use Rattle.rtt_top.specs.Across.{RunsAcross};

use crate::conferences::{conference_under, name_at_end};
use crate::messages::finish_with;
use crate::mix::{fault_of_mixing, mix_conference};
use command_spec::Fault;
use conf_text::Form;
use file_spec::Conference;
use rtt_attend::hear_names;
use rtt_io::{Gate, Sink, World};
use rtt_words::MixWords;
use std::alloc::Global;
use std::sync::Wait;
use std::thread::Threads;

/// How a conference is mixed over recordings.
#[derive(Clone, Copy)]
pub(crate) enum MixMode {
    /// `mix`: as its file has it.
    Plain,
    /// `attend`: with the names and the leavings that its inputs tell.
    Attending,
}

/// Mixes a conference, writes its outputs, and prints what is seen. Where its names are heard, each input is read to its end before one
/// is mixed.
#[inline(never)]
fn mix_as<R: Threads + Wait + Sync, W: World, K: Sink, G: Gate + Sync>(
    mixing: MixMode,
    rt: &R,
    alloc: Global,
    conference: &mut Conference,
    world: &mut W,
    out: &mut K,
    gate: &G,
) -> Result<(), Fault>
    ensures { MixingEndsAs mixing W.World K.Sink world.old out.old world.new out.new (meaning_of conference.old) (meaning_of conference.new) result }
{
    match mixing {
        MixMode::Plain => mix_conference(rt, alloc, conference, world, out, gate),
        MixMode::Attending => match hear_names(alloc, conference, world) {
            Ok(()) => mix_conference(rt, alloc, conference, world, out, gate),
            Err(fault) => Err(fault_of_mixing(conference.turns, fault)),
        },
    }
}

/// Mixes the conference of a file, and answers the status.
pub(crate) fn run_mixing<R: Threads + Wait + Sync, W: World, K: Sink, E: Sink, G: Gate + Sync>(
    mixing: MixMode,
    rt: &R,
    alloc: Global,
    words: &MixWords<'_>,
    world: &mut W,
    out: &mut K,
    err: &mut E,
    gate: &G,
) -> u8
    ensures { RunsAcross W.World K.Sink E.Sink (asked_as mixing (mixed words.now)) world.old out.old err.old world.new out.new err.new result }
{
    let mut conference = match conference_under(alloc, words.conference, Form::Files, world) {
        Ok(conference) => conference,
        Err(fault) => return finish_with(Err(fault), words.conference, err),
    };
    let ending = mix_as(mixing, rt, alloc, &mut conference, world, out, gate);
    let name = name_at_end(ending, words.conference, conference.legs.as_slice());
    finish_with(ending, name, err)
}
