//! A file is made of another one.
ghost use Rattle.std.specs.Prelude.{◌≡◌, IfOk, IfErr};
ghost use Rattle.rtt_io.specs.Names.{NoneFalls};
ghost use Rattle.command_spec.specs.Outcomes.{Same};
ghost use Rattle.rtt_top.specs.Conversions.{asked_for, input_of, output_of};
ghost use Rattle.rtt_top.specs.Faults.{name_in};
ghost use Rattle.rtt_top.specs.Worlds.{StopsOver, OnlyMakes};
ghost use Rattle.rtt_top.specs.Across.{EndsAcross, RunsAcross};

use crate::channel::frames_of;
use crate::files::save_output;
use crate::messages::finish;
use crate::relay::relayed;
use crate::send::recording_of;
use command_spec::Fault;
use rtt_base::Bytes;
use rtt_io::{Sink, World};
use rtt_words::{ChannelWords, SendWords};
use std::alloc::Global;

/// Of what a file is made.
#[derive(Clone, Copy)]
pub(crate) enum Conversion<'a> {
    /// `send`: of a script, the recording of what is sent.
    Script(SendWords<'a>),
    /// `relay`: of frames, the recording of what is sent.
    Frames(SendWords<'a>),
    /// `channel`: of a recording, its frames.
    Recording(ChannelWords<'a>),
}

/// The name of the file that is read.
fn input_of<'a>(conversion: &Conversion<'a>) -> &'a str
    ensures { result.now ≡ input_of conversion.now }
{
    match conversion {
        Conversion::Script(words) | Conversion::Frames(words) => words.file,
        Conversion::Recording(words) => words.file,
    }
}

/// The name of the file that is made.
fn output_of<'a>(conversion: &Conversion<'a>) -> &'a str
    ensures { result.now ≡ output_of conversion.now }
{
    match conversion {
        Conversion::Script(words) | Conversion::Frames(words) => words.out,
        Conversion::Recording(words) => words.out,
    }
}

/// The octets of the file that is made.
fn octets_of<W: World>(
    alloc: Global,
    conversion: &Conversion<'_>,
    world: &mut W,
) -> Result<Bytes, Fault>
    ensures stops { IfErr result (StopsOver W.World world.old world.new (input_of conversion.now) (asked_for conversion.now)) }
    ensures made { IfOk result (OnlyMakes W.World world.old (asked_for conversion.now) (output_of conversion.now)) }
    ensures same_contents { W.tells → Same (W.contents world.old) (W.contents world.new) }
    ensures calls_never_fall { NoneFalls W.own_faults world.old world.new }
    ensures objects_never_fall { NoneFalls W.object_faults world.old world.new }
{
    match conversion {
        Conversion::Script(words) => recording_of(alloc, words, world),
        Conversion::Frames(words) => relayed(alloc, words, world),
        Conversion::Recording(words) => frames_of(alloc, words, world),
    }
}

/// Makes a file of another one. It prints nothing: `out` stands here for the contract alone.
fn convert<W: World, K: Sink>(
    alloc: Global,
    conversion: &Conversion<'_>,
    world: &mut W,
    out: &K,
) -> Result<(), Fault>
    ensures { EndsAcross W.World K.Sink (asked_for conversion.now) world.old out.now world.new out.now
        (name_in (input_of conversion.now) (output_of conversion.now) result) result }
{
    match octets_of(alloc, conversion, world) {
        Ok(octets) => save_output(0, output_of(conversion), octets.as_slice(), world),
        Err(fault) => Err(fault),
    }
}

/// Makes a file of another one, and answers the status.
pub(crate) fn run_conversion<W: World, K: Sink, E: Sink>(
    alloc: Global,
    conversion: &Conversion<'_>,
    world: &mut W,
    out: &mut K,
    err: &mut E,
) -> u8
    ensures { RunsAcross W.World K.Sink E.Sink (asked_for conversion.now) world.old out.old err.old world.new out.new err.new result }
{
    let ending = convert(alloc, conversion, world, out);
    finish(ending, input_of(conversion), output_of(conversion), err)
}
