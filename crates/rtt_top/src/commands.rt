//! Which command is asked for: it is carried out, and its status answered.
ghost use Rattle.std.specs.Prelude.{◌≡◌, false, None, Some, is_some, IfSome};
ghost use Rattle.rtt_words.specs.Commands.{meaning};
ghost use Rattle.rtt_top.specs.Faults.{is_check, is_live};
ghost use Rattle.rtt_top.specs.Runs.{is_plain};
ghost use Rattle.rtt_top.specs.Across.{RunsAcross};

use crate::conversions::{Conversion, run_conversion};
use crate::help::run_help;
use crate::make::run_make;
use crate::mix_modes::{MixMode, run_mixing};
use crate::recordings::run_view;
use crate::trunk::run_cascade;
use crate::version::run_version;
use crate::views::{RecordingView, request_of};
use rtt_io::{Gate, Sink, World};
use rtt_words::Command;
use std::alloc::Global;
use std::sync::Wait;
use std::thread::Threads;

/// Does what is asked for, where that needs no thread and no network and waits for nobody, and answers the status.
pub fn carry_out_plain<W: World, K: Sink, E: Sink>(
    alloc: Global,
    command: &Command<'_>,
    world: &mut W,
    out: &mut K,
    err: &mut E,
) -> Option<u8>
    ensures plain { is_some result ≡ is_plain (Some (meaning command.now)) }
    ensures runs { IfSome result (RunsAcross W.World K.Sink E.Sink
        (meaning command.now) world.old out.old err.old world.new out.new err.new) }
    ensures same { result ≡ None → (world.new ≡ world.old) × (out.new ≡ out.old) × (err.new ≡ err.old) }
{
    match command {
        Command::Read(words) => {
            let text = RecordingView::Text(request_of(words));
            Some(run_view(alloc, words.file, text, world, out, err))
        }
        Command::ListRecords(words) => {
            let lines = RecordingView::Lines(words.payload_types);
            Some(run_view(alloc, words.file, lines, world, out, err))
        }
        Command::Show(words) => {
            let streams = RecordingView::Streams(words.payload_types);
            Some(run_view(alloc, words.file, streams, world, out, err))
        }
        Command::Times(words) => {
            let times = RecordingView::Times(words.payload_types);
            Some(run_view(alloc, words.file, times, world, out, err))
        }
        Command::Script(words) => {
            let transcript = RecordingView::Transcript(request_of(words));
            Some(run_view(alloc, words.file, transcript, world, out, err))
        }
        Command::Send(words) => {
            let script = Conversion::Script(*words);
            Some(run_conversion(alloc, &script, world, out, err))
        }
        Command::Relay(words) => {
            let frames = Conversion::Frames(*words);
            Some(run_conversion(alloc, &frames, world, out, err))
        }
        Command::Channel(words) => {
            let recording = Conversion::Recording(*words);
            Some(run_conversion(alloc, &recording, world, out, err))
        }
        Command::Help(topic) => Some(run_help(*topic, world, out, err)),
        Command::Version => Some(run_version(world, out, err)),
        Command::Mix(_)
        | Command::Attend(_)
        | Command::Cascade(_)
        | Command::Make(_)
        | Command::Live(_)
        | Command::Watch(_)
        | Command::Check(_) => None,
    }
}

/// Does what is asked for, where that is no live call and no look at a file, and answers the status.
pub fn carry_out<R: Threads + Wait + Sync, W: World, K: Sink, E: Sink, G: Gate + Sync>(
    rt: &R,
    alloc: Global,
    command: &Command<'_>,
    world: &mut W,
    out: &mut K,
    err: &mut E,
    gate: &G,
) -> u8
    requires live { is_live (meaning command.now) ≡ false }
    requires check { is_check (meaning command.now) ≡ false }
    ensures { RunsAcross W.World K.Sink E.Sink
        (meaning command.now) world.old out.old err.old world.new out.new err.new result }
{
    if let Some(status) = carry_out_plain(alloc, command, world, out, err) {
        return status;
    }
    match command {
        Command::Mix(words) => {
            let plain = MixMode::Plain;
            run_mixing(plain, rt, alloc, words, world, out, err, gate)
        }
        Command::Attend(words) => {
            let attending = MixMode::Attending;
            run_mixing(attending, rt, alloc, words, world, out, err, gate)
        }
        Command::Cascade(words) => run_cascade(rt, alloc, words, world, out, err, gate),
        Command::Make(words) => run_make(rt, alloc, words.number, world, out, err, gate),
        Command::Live(_)
        | Command::Watch(_)
        | Command::Read(_)
        | Command::ListRecords(_)
        | Command::Send(_)
        | Command::Relay(_)
        | Command::Channel(_)
        | Command::Show(_)
        | Command::Times(_)
        | Command::Script(_)
        | Command::Check(_)
        | Command::Help(_)
        | Command::Version => unreachable!(),
    }
}
