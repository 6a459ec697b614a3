//! `version`: the name and the version of the program.
ghost use Rattle.std.specs.Prelude.{[]};
ghost use Rattle.rtt_words.specs.Words.{Version};
ghost use Rattle.rtt_top.specs.Faults.{name_in};
ghost use Rattle.rtt_top.specs.Across.{EndsAcross, RunsAcross};

use crate::messages::{finish, print};
use command_spec::Fault;
use rtt_io::{Sink, World};

/// The version is that of the package.
const VERSION_LINE: &[u8] = b"rtt_program 0.1.0\n";

/// Prints the version. It reads and makes no file: `world` stands here for the contract alone.
fn version<W: World, K: Sink>(world: &W, out: &mut K) -> Result<(), Fault>
    ensures { EndsAcross W.World K.Sink Version world.now out.old world.now out.new (name_in [] [] result) result }
{
    print(VERSION_LINE, out)
}

/// `version`, and what is told of it.
pub fn run_version<W: World, K: Sink, E: Sink>(world: &W, out: &mut K, err: &mut E) -> u8
    ensures { RunsAcross W.World K.Sink E.Sink Version world.now out.old err.old world.now out.new err.new result }
{
    let ending = version(world, out);
    finish(ending, "", "", err)
}
