//! What `help` tells.
ghost use Rattle.std.specs.Prelude.{◌≡◌};
ghost use Rattle.rtt_words.specs.Help.{help_text, topic};

/// What `help` is asked for: the words of all commands, or one command.
#[derive(Clone, Copy, Debug, PartialEq, Eq)]
pub enum Topic {
    /// The words of all.
    Usage,
    Read,
    List,
    Send,
    Mix,
    Attend,
    Cascade,
    Make,
    Live,
    Watch,
    Relay,
    Channel,
    Show,
    Times,
    Script,
    Check,
    Help,
    Version,
}

/// The command of this name.
pub(crate) fn topic_of(name: &str) -> Option<Topic>
    ensures { result ≡ topic name.now }
{
    match name {
        "read" => Some(Topic::Read),
        "list" => Some(Topic::List),
        "send" => Some(Topic::Send),
        "mix" => Some(Topic::Mix),
        "attend" => Some(Topic::Attend),
        "cascade" => Some(Topic::Cascade),
        "make" => Some(Topic::Make),
        "live" => Some(Topic::Live),
        "watch" => Some(Topic::Watch),
        "relay" => Some(Topic::Relay),
        "channel" => Some(Topic::Channel),
        "show" => Some(Topic::Show),
        "times" => Some(Topic::Times),
        "script" => Some(Topic::Script),
        "check" => Some(Topic::Check),
        "help" => Some(Topic::Help),
        "version" => Some(Topic::Version),
        _ => None,
    }
}

const USAGE: &[u8] = b"\
usage: rtt_program read FILE SSRC [SOURCE [T140 RED]]
\x20      rtt_program list FILE [T140 RED]
\x20      rtt_program send SCRIPT OUT SSRC SEQ STAMP
\x20      rtt_program mix CONF
\x20      rtt_program attend CONF
\x20      rtt_program cascade FILE SSRC CONF
\x20      rtt_program make N
\x20      rtt_program live CONF
\x20      rtt_program watch CONF
\x20      rtt_program relay FRAMES OUT SSRC SEQ STAMP
\x20      rtt_program channel FILE SSRC OUT
\x20      rtt_program show FILE [T140 RED]
\x20      rtt_program times FILE [T140 RED]
\x20      rtt_program script FILE SSRC [SOURCE [T140 RED]]
\x20      rtt_program check FILE
\x20      rtt_program help [COMMAND]
\x20      rtt_program version
";

const READ: &[u8] = b"\
usage: rtt_program read FILE SSRC [SOURCE [T140 RED]]
prints the text of a source of a recording as a terminal shows it, and counts the packets
FILE: a recording, in the form of rtpdump
SSRC: that of its packets, a number up to 4294967295; list FILE shows it
SOURCE: whose text in them, a number up to 4294967295; left out, SSRC
T140 RED: the payload types of text/t140 and text/red, two different numbers from 96 to 127; left out, 98 100
status 0: all is done
status 3: a file cannot be opened
status 4: a file cannot be read to its end
status 6: a recording, or frames, are refused
status 7: the output, or OUT, cannot be written
status 70: out of memory
";

const LIST: &[u8] = b"\
usage: rtt_program list FILE [T140 RED]
prints a line for each record of a recording: when it came, its numbers, whose text it is, or why it is refused
FILE: a recording, in the form of rtpdump
T140 RED: the payload types of text/t140 and text/red, two different numbers from 96 to 127; left out, 98 100
status 0: all is done
status 3: a file cannot be opened
status 4: a file cannot be read to its end
status 6: a recording, or frames, are refused
status 7: the output, or OUT, cannot be written
status 70: out of memory
";

const SEND: &[u8] = b"\
usage: rtt_program send SCRIPT OUT SSRC SEQ STAMP
makes the recording of what a sender sends of a script
SCRIPT: lines of a number of milliseconds, one space, and the text that is typed then
OUT: the recording that is made
SSRC SEQ STAMP: of its packets, numbers up to 4294967295, 65535 and 4294967295; SEQ is that of the first packet, STAMP the timestamp of the moment 0
status 0: all is done
status 3: a file cannot be opened
status 4: a file cannot be read to its end
status 5: the script or the conference is refused
status 7: the output, or OUT, cannot be written
status 70: out of memory
";

const MIX: &[u8] = b"\
usage: rtt_program mix CONF
mixes a conference of recordings, makes the OUT of each leg, and prints what each terminal shows
CONF: a conference of recordings
status 0: all is done
status 3: a file cannot be opened
status 4: a file cannot be read to its end
status 5: the script or the conference is refused
status 6: a recording, or frames, are refused
status 7: the output, or OUT, cannot be written
status 9: the conference takes too many turns
status 70: out of memory
";

const ATTEND: &[u8] = b"\
usage: rtt_program attend CONF
mixes as mix does, with the names and the leavings that RTCP in the recordings tells
CONF: a conference of recordings
status 0: all is done
status 3: a file cannot be opened
status 4: a file cannot be read to its end
status 5: the script or the conference is refused
status 6: a recording, or frames, are refused
status 7: the output, or OUT, cannot be written
status 9: the conference takes too many turns
status 70: out of memory
";

const CASCADE: &[u8] = b"\
usage: rtt_program cascade FILE SSRC CONF
mixes as mix does, where the legs whose IN is trunk have their texts in what another mixer sent
FILE: the recording of what that sent
SSRC: of the packets in it, a number up to 4294967295
CONF: a conference of recordings
status 0: all is done
status 3: a file cannot be opened
status 4: a file cannot be read to its end
status 5: the script or the conference is refused
status 6: a recording, or frames, are refused
status 7: the output, or OUT, cannot be written
status 9: the conference takes too many turns
status 70: out of memory
";

const MAKE: &[u8] = b"\
usage: rtt_program make N
makes a conference from a number, mixes it in memory, and prints a line of it
N: a number from 1 to 1000
status 0: all is done
status 7: the output, or OUT, cannot be written
status 9: the conference takes too many turns
status 70: out of memory
";

const LIVE: &[u8] = b"\
usage: rtt_program live CONF
mixes a conference over UDP while people type, and prints at its end what each terminal shows
CONF: a conference of links
status 0: all is done
status 3: a file cannot be opened
status 4: a file cannot be read to its end
status 5: the script or the conference is refused
status 7: the output, or OUT, cannot be written
status 8: a link cannot be opened
status 70: out of memory
";

const WATCH: &[u8] = b"\
usage: rtt_program watch CONF
does what live does while a reader follows the texts, and prints how much of each was taken
CONF: a conference of links
status 0: all is done
status 3: a file cannot be opened
status 4: a file cannot be read to its end
status 5: the script or the conference is refused
status 7: the output, or OUT, cannot be written
status 8: a link cannot be opened
status 70: out of memory
";

const RELAY: &[u8] = b"\
usage: rtt_program relay FRAMES OUT SSRC SEQ STAMP
makes the recording of what a sender sends of frames of text
FRAMES: frames, each a time in 32 bits, a length in 16 bits, and so many octets of text
OUT: the recording that is made
SSRC SEQ STAMP: of its packets, numbers up to 4294967295, 65535 and 4294967295; SEQ is that of the first packet, STAMP the timestamp of the moment 0
status 0: all is done
status 3: a file cannot be opened
status 4: a file cannot be read to its end
status 6: a recording, or frames, are refused
status 7: the output, or OUT, cannot be written
status 70: out of memory
";

const CHANNEL: &[u8] = b"\
usage: rtt_program channel FILE SSRC OUT
writes the text of a recording as frames
FILE: a recording, in the form of rtpdump
SSRC: that of its packets, a number up to 4294967295; list FILE shows it
OUT: the file of frames that is made
status 0: all is done
status 3: a file cannot be opened
status 4: a file cannot be read to its end
status 6: a recording, or frames, are refused
status 7: the output, or OUT, cannot be written
status 70: out of memory
";

const SHOW: &[u8] = b"\
usage: rtt_program show FILE [T140 RED]
prints all that was typed in each stream of a recording, and what else is in it; of one that is broken, the front
FILE: a recording, in the form of rtpdump
T140 RED: the payload types of text/t140 and text/red, two different numbers from 96 to 127; left out, 98 100
status 0: all is done
status 3: a file cannot be opened
status 4: a file cannot be read to its end
status 6: a recording, or frames, are refused
status 7: the output, or OUT, cannot be written
status 70: out of memory
";

const TIMES: &[u8] = b"\
usage: rtt_program times FILE [T140 RED]
prints what came in a recording in the order of its moments, by the clock: each text, and which numbers were lost or late
FILE: a recording, in the form of rtpdump
T140 RED: the payload types of text/t140 and text/red, two different numbers from 96 to 127; left out, 98 100
status 0: all is done
status 3: a file cannot be opened
status 4: a file cannot be read to its end
status 6: a recording, or frames, are refused
status 7: the output, or OUT, cannot be written
status 70: out of memory
";

const SCRIPT: &[u8] = b"\
usage: rtt_program script FILE SSRC [SOURCE [T140 RED]]
prints the text of a source of a recording as a script, which send takes
FILE: a recording, in the form of rtpdump
SSRC: that of its packets, a number up to 4294967295; list FILE shows it
SOURCE: whose text in them, a number up to 4294967295; left out, SSRC
T140 RED: the payload types of text/t140 and text/red, two different numbers from 96 to 127; left out, 98 100
status 0: all is done
status 3: a file cannot be opened
status 4: a file cannot be read to its end
status 6: a recording, or frames, are refused
status 7: the output, or OUT, cannot be written
status 70: out of memory
";

const CHECK: &[u8] = b"\
usage: rtt_program check FILE
prints what a file is, whether the program takes it, and if not where, why, and what to do
FILE: a recording, a script, a conference or frames
status 0: all is done
status 1: something is wrong with FILE
status 3: a file cannot be opened
status 4: a file cannot be read to its end
status 7: the output, or OUT, cannot be written
status 70: out of memory
";

const HELP: &[u8] = b"\
usage: rtt_program help [COMMAND]
prints the words of all commands, or of one its words, what it does, and the statuses with which it ends
COMMAND: the first word of a command
status 0: all is done
status 7: the output, or OUT, cannot be written
status 70: out of memory
";

const VERSION: &[u8] = b"\
usage: rtt_program version
prints the name of the program and its version
status 0: all is done
status 7: the output, or OUT, cannot be written
status 70: out of memory
";

/// What is told: of all commands the words, also of words outside the word table; of one command its words, what it does, and the
/// statuses with which it can end. Each line ends with a line feed.
pub fn help_text(topic: Topic) -> &'static [u8]
    ensures { result.now ≡ help_text topic }
{
    match topic {
        Topic::Usage => USAGE,
        Topic::Read => READ,
        Topic::List => LIST,
        Topic::Send => SEND,
        Topic::Mix => MIX,
        Topic::Attend => ATTEND,
        Topic::Cascade => CASCADE,
        Topic::Make => MAKE,
        Topic::Live => LIVE,
        Topic::Watch => WATCH,
        Topic::Relay => RELAY,
        Topic::Channel => CHANNEL,
        Topic::Show => SHOW,
        Topic::Times => TIMES,
        Topic::Script => SCRIPT,
        Topic::Check => CHECK,
        Topic::Help => HELP,
        Topic::Version => VERSION,
    }
}
