//! A live call of the conference of a file is served, and what was seen is printed.
ghost use Rattle.std.specs.Prelude.{◌≡◌, true};
ghost use Rattle.file_spec.specs.Conferences.{meaning_of};
ghost use Rattle.rtt_live.specs.Calls.{IsOfLinks};
ghost use Rattle.rtt_words.specs.Commands.{mixed};
ghost use Rattle.rtt_top.specs.Conferences.{fault_of_live};
ghost use Rattle.rtt_top.specs.Lives.{EndsServing, GivesUp, IsGivenUp, IsServedFrom, OnGivenUp, PrintsReport, ServingEnds, Share, is_unserved, served_by, status_at};
ghost use Rattle.rtt_top.specs.Outside.{left_by, outside_over, output_at};

use crate::conferences::{conference_under, name_at_end};
use crate::messages::{finish_with, print_all};
use command_spec::Fault;
use conf_text::Form;
use file_spec::Conference;
use link_io::Links;
use rtt_io::{Gate, Sink, World};
use rtt_live::{LiveFault, LiveReport, serve, serve_watched};
use rtt_words::MixWords;
use std::alloc::Global;
use std::sync::Wait;
use std::thread::Threads;
use std::time::Clock;

/// How a live call is served.
#[derive(Clone, Copy)]
pub(crate) enum ServeMode {
    Alone,
    /// With a board, and what is read there is printed behind what was seen.
    Watched,
}

/// The fault of a command for that of a live call.
fn fault_of_live(fault: LiveFault) -> Fault
    ensures { result ≡ fault_of_live fault }
{
    match fault {
        LiveFault::Link { leg } => Fault::LinkFailed {
            leg: u32::from(leg),
        },
        LiveFault::NoMemory => Fault::NoMemory,
    }
}

/// Prints what was seen of a live call that was served, or answers the fault that ended it.
fn print_report<K: Sink>(served: Result<LiveReport, LiveFault>, out: &mut K) -> Result<(), Fault>
    ensures { PrintsReport K.Sink served out.old out.new result }
{
    match served {
        Ok(report) => print_all(report.views.parts(), out),
        Err(fault) => Err(fault_of_live(fault)),
    }
}

/// Serves a live call of a conference of links, and prints what was seen.
fn serve_conference<
    R: Threads + Wait + Clock + Copy + Send + Sync + 'static,
    L: Links,
    K: Sink,
    G: Gate + Sync,
>(
    serving: ServeMode,
    rt: &R,
    alloc: Global,
    conference: &Conference,
    links: &mut L,
    out: &mut K,
    gate: &G,
) -> Result<(), Fault>
    requires { IsOfLinks (meaning_of conference.now) }
    ensures ends { ServingEnds (served_by serving (meaning_of conference.now) L.tells (left_by L.Links links.old) (left_by L.Links links.new)) K.tells
        (left_by L.Links links.old) (left_by L.Links links.new) (output_at K.Sink out.old) (output_at K.Sink out.new) (meaning_of conference.now) result }
    ensures given_up { OnGivenUp result (IsGivenUp (meaning_of conference.now) L.tells (left_by L.Links links.old) (left_by L.Links links.new)) }
{
    match serving {
        ServeMode::Alone => {
            let served = serve(rt, alloc, conference, links, gate);
            print_report(served, out)
        }
        ServeMode::Watched => {
            let served = serve_watched(rt, alloc, conference, links, gate);
            print_report(served, out)
        }
    }
}

/// Serves a live call of the conference of a file, and answers the status.
pub(crate) fn serve_file<
    R: Threads + Wait + Clock + Copy + Send + Sync + 'static,
    W: World,
    L: Links,
    K: Sink,
    E: Sink,
    G: Gate + Sync,
>(
    serving: ServeMode,
    rt: &R,
    alloc: Global,
    words: &MixWords<'_>,
    world: &mut W,
    links: &mut L,
    out: &mut K,
    err: &mut E,
    gate: &G,
) -> u8
    ensures ends { EndsServing words.now.conference.now W.tells K.tells E.tells
        (outside_over W.World K.Sink L.Links world.old out.old links.old) (outside_over W.World K.Sink L.Links world.new out.new links.new)
        (output_at E.Sink err.old) (output_at E.Sink err.new) result }
    ensures served { (share : Share) → result ≡ status_at share
        → IsServedFrom share (λ c. served_by serving c L.tells (left_by L.Links links.old) (left_by L.Links links.new)) W.tells K.tells (mixed words.now)
        (outside_over W.World K.Sink L.Links world.old out.old links.old) (outside_over W.World K.Sink L.Links world.new out.new links.new) }
    ensures given_up { GivesUp W.tells L.tells (mixed words.now)
        (outside_over W.World K.Sink L.Links world.old out.old links.old) (outside_over W.World K.Sink L.Links world.new out.new links.new) result }
    ensures offline { is_unserved result ≡ true → links.new ≡ links.old }
{
    let conference = match conference_under(alloc, words.conference, Form::Links, world) {
        Ok(conference) => conference,
        Err(fault) => return finish_with(Err(fault), words.conference, err),
    };
    let ending = serve_conference(serving, rt, alloc, &conference, links, out, gate);
    let name = name_at_end(ending, words.conference, conference.legs.as_slice());
    finish_with(ending, name, err)
}
