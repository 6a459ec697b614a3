//! `help`: the words of all commands, or of one its words, what it does and its statuses.
ghost use Rattle.std.specs.Prelude.{[]};
ghost use Rattle.rtt_words.specs.Words.{Help};
ghost use Rattle.rtt_top.specs.Faults.{name_in};
ghost use Rattle.rtt_top.specs.Across.{EndsAcross, RunsAcross};

use crate::messages::{finish, print};
use command_spec::Fault;
use rtt_io::{Sink, World};
use rtt_words::{Topic, help_text};

/// Prints what is told. It reads and makes no file: `world` stands here for the contract alone.
fn help<W: World, K: Sink>(topic: Topic, world: &W, out: &mut K) -> Result<(), Fault>
    ensures { EndsAcross W.World K.Sink (Help topic) world.now out.old world.now out.new (name_in [] [] result) result }
{
    print(help_text(topic), out)
}

/// `help`, and what is told of it.
pub fn run_help<W: World, K: Sink, E: Sink>(topic: Topic, world: &W, out: &mut K, err: &mut E) -> u8
    ensures { RunsAcross W.World K.Sink E.Sink (Help topic) world.now out.old err.old world.now out.new err.new result }
{
    let ending = help(topic, world, out);
    finish(ending, "", "", err)
}
