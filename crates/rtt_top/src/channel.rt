//! `channel`: a recording is opened and heard to its end, and its text is written as frames.
ghost use Rattle.std.specs.Prelude.{◌≡◌, IfOk, IfErr};
ghost use Rattle.rtt_io.specs.Names.{NoneFalls};
ghost use Rattle.rtt_words.specs.Words.{Channel};
ghost use Rattle.rtt_words.specs.Commands.{channelled};
ghost use Rattle.command_spec.specs.Outcomes.{Same};
ghost use Rattle.rtt_top.specs.Frames.{fault_of_channel};
ghost use Rattle.rtt_top.specs.Worlds.{StopsOver, WritesFrames};

use crate::files::{fault_of_dump, refused_frames};
use command_spec::Fault;
use rtpdump_io::DumpReader;
use rtt_base::Bytes;
use rtt_io::World;
use rtt_words::ChannelWords;
use std::alloc::Global;
use text_conversions::{ChannelFault, channel_file};

/// The fault of a command for that of frames that are written of a recording.
fn fault_of_channel(fault: ChannelFault) -> Fault
    ensures { result ≡ fault_of_channel fault }
{
    match fault {
        ChannelFault::Dump(fault) => fault_of_dump(0, fault),
        ChannelFault::Refused(fault) => refused_frames(fault),
        ChannelFault::NoMemory => Fault::NoMemory,
    }
}

/// The frames of a recording.
pub(crate) fn frames_of<W: World>(
    alloc: Global,
    words: &ChannelWords<'_>,
    world: &mut W,
) -> Result<Bytes, Fault>
    ensures stops { IfErr result (StopsOver W.World world.old world.new words.now.file.now (Channel (channelled words.now))) }
    ensures made { IfOk result (WritesFrames W.World world.old (channelled words.now)) }
    ensures same_contents { W.tells → Same (W.contents world.old) (W.contents world.new) }
    ensures calls_never_fall { NoneFalls W.own_faults world.old world.new }
    ensures objects_never_fall { NoneFalls W.object_faults world.old world.new }
{
    let Ok(source) = world.open_source(words.file) else {
        return Err(Fault::CannotOpen { input: 0 });
    };
    let mut reader = DumpReader::new(source);
    let written = channel_file(alloc, &mut reader, words.ssrc);
    world.done_src(reader.into_source());
    match written {
        Ok(frames) => Ok(frames),
        Err(fault) => Err(fault_of_channel(fault)),
    }
}
