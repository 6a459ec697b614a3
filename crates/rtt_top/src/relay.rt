//! `relay`: frames are read and sent, and a recording is made of what is sent.
ghost use Rattle.std.specs.Prelude.{◌≡◌, IfOk, IfErr};
ghost use Rattle.rtt_io.specs.Names.{NoneFalls};
ghost use Rattle.rtt_words.specs.Words.{Relay};
ghost use Rattle.rtt_words.specs.Commands.{sent};
ghost use Rattle.command_spec.specs.Outcomes.{Same};
ghost use Rattle.rtt_top.specs.Frames.{fault_of_relay};
ghost use Rattle.rtt_top.specs.Worlds.{StopsOver, RelaysFrames};

use crate::files::{read_input, refused_frames};
use crate::send::sender_settings;
use command_spec::Fault;
use file_spec::frame_limits::{FRAME_HEAD_OCTETS, MOST_FRAMES_OCTETS};
use rtt_base::Bytes;
use rtt_io::World;
use rtt_words::SendWords;
use std::alloc::Global;
use text_conversions::{RelayFault, relay_frames};

/// So many octets are read at most: those that frames may have, and the head of one more.
const MOST_READ: usize = MOST_FRAMES_OCTETS as usize + FRAME_HEAD_OCTETS;

/// The fault of a command for that of its frames.
fn fault_of_relay(fault: RelayFault) -> Fault
    ensures { result ≡ fault_of_relay fault }
{
    match fault {
        RelayFault::Refused(fault) => refused_frames(fault),
        RelayFault::NoMemory => Fault::NoMemory,
    }
}

/// The recording of what is sent of the frames.
pub(crate) fn relayed<W: World>(
    alloc: Global,
    words: &SendWords<'_>,
    world: &mut W,
) -> Result<Bytes, Fault>
    ensures stops { IfErr result (StopsOver W.World world.old world.new words.now.file.now (Relay (sent words.now))) }
    ensures made { IfOk result (RelaysFrames W.World world.old (sent words.now)) }
    ensures same_contents { W.tells → Same (W.contents world.old) (W.contents world.new) }
    ensures calls_never_fall { NoneFalls W.own_faults world.old world.new }
    ensures objects_never_fall { NoneFalls W.object_faults world.old world.new }
{
    let octets = match read_input(alloc, words.file, MOST_READ, world) {
        Ok(octets) => octets,
        Err(fault) => return Err(fault),
    };
    match relay_frames(alloc, octets.as_slice(), sender_settings(words)) {
        Ok(recording) => Ok(recording),
        Err(fault) => Err(fault_of_relay(fault)),
    }
}
