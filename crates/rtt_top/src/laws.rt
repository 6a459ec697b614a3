//! What holds of what a run makes. No code stands here.
ghost use Rattle.std.specs.Prelude.{ℕ, List};
ghost use Rattle.rtt_words.specs.Words.{SendWords};
ghost use Rattle.rtt_words.specs.Sent.{IsSent};
ghost use Rattle.rtt_top.specs.Statuses.{EndsAsItCan, HelpNamesThem};
ghost use Rattle.rtt_top.specs.Worlds.{SendMakes};

use rtt_io::{Sink, World};

/// The file that `send` makes of a script has the own packets of a lawful history, in which each text is repeated twice,
/// and whose texts together are those of the script.
pub fn sent_files_are_histories()
    ensures { (s : SendWords) (octets file : List ℕ) → SendMakes s octets file → IsSent s octets file }
{}

/// Whatever the world and the outputs tell, a command ends with no other status than those that it has: `send` with no 6 or
/// 9, `make` with 0, 7, 9 or 70 alone, `help` and `version` with 0, 7 or 70 alone, `mix` with any but 2 and 8, `live` with no 6 or 9, and
/// each other one with no 5, 8 or 9. None ends with 2.
pub fn statuses_are_those_of_the_command<W: World, K: Sink, E: Sink>()
    ensures { EndsAsItCan W.tells K.tells E.tells }
{}

/// What `help` tells of a command names the statuses with which it can end, and no other.
pub fn help_names_the_statuses()
    ensures { HelpNamesThem }
{}
