//! A view of a recording: the recording is opened, its head looked at, and read; and its view is printed.
ghost use Rattle.std.specs.Prelude.{IfOk, IfErr};
ghost use Rattle.command_spec.specs.Outcomes.{Same};
ghost use Rattle.rtt_top.specs.Faults.{name_in};
ghost use Rattle.rtt_top.specs.RecordingViews.{command_of};
ghost use Rattle.rtt_top.specs.Worlds.{OnlyPrints, StopsOver};
ghost use Rattle.rtt_top.specs.Across.{EndsAcross, RunsAcross};

use crate::files::fault_of_recording;
use crate::messages::{finish, print};
use crate::views::RecordingView;
use command_spec::Fault;
use rtpdump_io::DumpReader;
use rtt_base::Bytes;
use rtt_io::{Sink, World};
use rtt_show::HeadReader;
use std::alloc::Global;

/// The view of the recording of this name.
fn view_under<W: World>(
    alloc: Global,
    name: &str,
    view: RecordingView,
    world: &mut W,
) -> Result<Bytes, Fault>
    ensures stops { IfErr result (StopsOver W.World world.old world.new name.now (command_of view name.now)) }
    ensures view { W.tells → IfOk result (OnlyPrints W.World world.old (command_of view name.now)) }
    ensures same_contents { W.tells → Same (W.contents world.old) (W.contents world.new) }
{
    let Ok(source) = world.open_source(name) else {
        return Err(Fault::CannotOpen { input: 0 });
    };
    let (opened, looked) = HeadReader::open(source);
    let Ok(start) = looked else {
        world.done_src(opened.into_source());
        return Err(Fault::CannotRead { input: 0 });
    };
    let mut reader = DumpReader::new(opened);
    let made = view.view_of(alloc, &mut reader, start);
    world.done_src(reader.into_source().into_source());
    match made {
        Ok(octets) => Ok(octets),
        Err(fault) => Err(fault_of_recording(fault)),
    }
}

/// Prints the view of the recording of this name.
fn print_view<W: World, K: Sink>(
    alloc: Global,
    name: &str,
    view: RecordingView,
    world: &mut W,
    out: &mut K,
) -> Result<(), Fault>
    ensures { EndsAcross W.World K.Sink (command_of view name.now) world.old out.old world.new out.new (name_in name.now name.now result) result }
{
    match view_under(alloc, name, view, world) {
        Ok(octets) => print(octets.as_slice(), out),
        Err(fault) => Err(fault),
    }
}

/// Does a command that prints a view of the recording of this name, and answers the status.
pub(crate) fn run_view<W: World, K: Sink, E: Sink>(
    alloc: Global,
    name: &str,
    view: RecordingView,
    world: &mut W,
    out: &mut K,
    err: &mut E,
) -> u8
    ensures { RunsAcross W.World K.Sink E.Sink (command_of view name.now) world.old out.old err.old world.new out.new err.new result }
{
    let ending = print_view(alloc, name, view, world, out);
    finish(ending, name, name, err)
}
