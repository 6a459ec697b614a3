//! What is told of one sender.
ghost use Rattle.std.specs.Prelude.{◌≡◌, ◌==◌, Some, if◌then◌else◌};
ghost use Rattle.wire_spec.specs.Rtcp.{rtcp};
ghost use Rattle.command_spec.specs.Attending.{and_event, and_events, and_read, nothing, or_first};
ghost use Rattle.rtt_attend.specs.Counted.{untallied};
ghost use Rattle.rtt_attend.specs.Heard.{said_of};

use rtcp_labels::read_rtcp;
use view_spec::Tally;
use wire_spec::{Event, Events, SdesName};

/// What is told of a sender: of each kind what was told first, and what is counted.
#[derive(Drop)]
pub(crate) struct SourceNotes {
    /// Its name.
    pub name: Option<SdesName>,
    /// The moment at which it left (milliseconds).
    pub left: Option<u32>,
    /// What came in its input.
    pub tally: Tally,
}

impl SourceNotes {
    /// Nothing is told, and nothing was counted.
    pub(crate) fn new() -> SourceNotes
        ensures said { said_of result ≡ nothing }
        ensures tally { result.tally ≡ untallied }
    {
        SourceNotes {
            name: None,
            left: None,
            tally: Tally {
                came: 0,
                text: 0,
                refused: 0,
                foreign: 0,
                senders: 0,
            },
        }
    }
}

/// The sender has this name, if none was told before.
fn hear_name(name: &SdesName, said: &mut SourceNotes)
    ensures name { said.new.name ≡ or_first said.old.name name.now }
    ensures left { said.new.left ≡ said.old.left }
    ensures tally { said.new.tally ≡ said.old.tally }
{
    if said.name.is_none() {
        said.name = Some(SdesName::from_text(name.as_str()));
    }
}

/// The sender leaves at this moment, if it did not before.
fn hear_leaving(at: u32, said: &mut SourceNotes)
    ensures name { said.new.name ≡ said.old.name }
    ensures left { said.new.left ≡ or_first said.old.left at }
    ensures tally { said.new.tally ≡ said.old.tally }
{
    if said.left.is_none() {
        said.left = Some(at);
    }
}

/// An event that is told at the moment `at`, where it is one of this sender.
fn hear_event(ssrc: u32, at: u32, event: &Event, said: &mut SourceNotes)
    ensures said { said_of said.new ≡ and_event ssrc at (said_of said.old) event.now }
    ensures tally { said.new.tally ≡ said.old.tally }
{
    match event {
        Event::Name { ssrc: sender, name } => {
            if *sender == ssrc {
                hear_name(name, said);
            }
        }
        Event::Bye { ssrc: leaver } => {
            if *leaver == ssrc {
                hear_leaving(at, said);
            }
        }
    }
}

/// Events that are told at the moment `at`.
fn hear_events(ssrc: u32, at: u32, events: &[Event], said: &mut SourceNotes)
    ensures said { said_of said.new ≡ and_events ssrc at (said_of said.old) events.now }
    ensures tally { said.new.tally ≡ said.old.tally }
{
    for event in events {
        hear_event(ssrc, at, event, said);
    }
}

/// What the octets of a record of RTCP tell of this sender; what is refused tells nothing.
pub(crate) fn hear_rtcp(
    ssrc: u32,
    at: u32,
    octets: &[u8],
    events: &mut Events,
    said: &mut SourceNotes,
)
    ensures said { said_of said.new ≡ and_read ssrc at (said_of said.old) (rtcp octets.now) }
    ensures tally { said.new.tally ≡ said.old.tally }
{
    if let Ok(()) = read_rtcp(octets, events) {
        hear_events(ssrc, at, events.as_slice(), said);
    }
}
