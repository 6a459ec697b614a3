//! A gateway on the mixer.
ghost use Rattle.std.specs.Prelude.{◌≡◌, ◌+◌, ◌<◌, ◌≤◌, ◌^◌, true, false, Some, length, slice_get, IfOk};
ghost use Rattle.file_spec.specs.Conferences.{meaning_of};
ghost use Rattle.mixer.specs.Making.{source_counts};
ghost use Rattle.mixer.specs.Posts.{ArePosts, IsPost};
ghost use Rattle.mixer.specs.States.{legs_of, sources_of};
ghost use Rattle.example_gateway.specs.Mixers.{IsSame};
ghost use Rattle.example_gateway.specs.Outputs.{counts_of};
ghost use Rattle.file_spec.specs.declared.limits.TheConstants.{MOST_LEGS, MOST_TURNS};

use crate::legs::Leg;
use file_spec::Conference;
use file_spec::limits::MOST_TURNS;
use mixer::{Batch, Mixer, Post};
use mixer_posts::{sources_to, stream_to};
use packetizer::Packetizer;
use rtt_base::{Full, NoMemory, Packet};
use std::alloc::Global;

/// Where the packets to the terminals go.
pub trait Terminals {
    /// Sends a packet to the terminal of the leg with this number.
    fn send(&mut self, leg: usize, packet: &[u8]);
}

/// A gateway: it hears the legs of a conference, mixes their text, and writes what each terminal is sent. Moments are in milliseconds.
#[derive(Drop)]
pub struct Gateway {
    legs: Vec<Leg>,
    mixer: Mixer,
    /// What the last turn sent.
    batch: Batch,
    /// What writes the packets to each leg's terminal.
    outputs: Vec<Packetizer>,
    ghost few: { length legs.items ≤ MOST_LEGS },
    ghost heard: { length legs.items ≡ legs_of mixer },
    ghost written: { counts_of outputs.items ≡ sources_of mixer },
}

impl Gateway {
    ghost use Rattle.example_gateway.specs.Gateways.{legs_in, turns_in};

    /// The gateway of this conference, all of whose legs came, and of none of whom anything came yet.
    pub fn new(alloc: Global, conference: &Conference) -> Result<Gateway, NoMemory>
        ensures legs { IfOk result (λ gateway. legs_in gateway ≡ length conference.now.legs) }
        ensures turns { IfOk result (λ gateway. turns_in gateway ≡ 0) }
    {
        let mut mixer = Mixer::new(alloc, conference)?;
        let mut legs = Vec::new(alloc);
        let mut outputs = Vec::new(alloc);
        for leg in 0..conference.legs.len() {
            mixer.admit(leg, true);
            legs.push(Leg::new(alloc, conference, leg)?)?;
            outputs.push(output_to(alloc, conference, leg)?)?;
        }
        Ok(Gateway {
            legs,
            mixer,
            batch: Batch::new(alloc)?,
            outputs,
        })
    }

    /// How many legs there are.
    pub fn legs(&self) -> usize
        ensures { result ≡ legs_in self.now }
    {
        self.legs.len()
    }

    /// Hears a datagram of the leg with this number, counted from 0, that came at `now`. What is no packet of its text is passed over.
    /// `Full`: the mixer has no room for text of the leg of before. Then the datagram is handed in again behind the next turn. So it is
    /// for good where 2^40 packets of the leg came.
    pub fn hear(&mut self, leg: usize, now: u64, datagram: &[u8]) -> Result<(), Full>
        requires leg { leg < legs_in self.old }
        requires now { now < 2 ^ 47 }
        ensures legs { legs_in self.new ≡ legs_in self.old }
        ensures turns { turns_in self.new ≡ turns_in self.old }
    {
        self.legs[leg].hear(leg as u8, now, datagram, &mut self.mixer)
    }

    /// A turn at `now`: each terminal is sent at most one packet. One comes at each tick of the conference: the mixer's time goes on by
    /// at most 200 in a turn. False where 5000000 turns were made: then none is.
    pub fn turn<T: Terminals>(&mut self, now: u64, terminals: &mut T) -> bool
        requires { now < 2 ^ 47 }
        ensures legs { legs_in self.new ≡ legs_in self.old }
        ensures made { result ≡ true → turns_in self.new ≡ turns_in self.old + 1 }
        ensures over { result ≡ false → MOST_TURNS ≤ turns_in self.old }
        ensures same { result ≡ false → turns_in self.new ≡ turns_in self.old }
    {
        if self.mixer.turns() >= u64::from(MOST_TURNS) {
            return false;
        }
        expire_all(&mut self.legs, now, &mut self.mixer);
        self.mixer.turn(now, &mut self.batch);
        send_all(self.batch.posts(), &mut self.outputs, terminals);
        true
    }
}

/// What writes the packets to the terminal of the leg with this number.
fn output_to(alloc: Global, conference: &Conference, leg: usize) -> Result<Packetizer, NoMemory>
    requires { leg < length conference.now.legs }
    ensures { IfOk result (λ output. slice_get (source_counts (meaning_of conference.now)) leg
        ≡ Some (length output.speakers)) }
{
    let sources = sources_to(alloc, conference, leg)?;
    Packetizer::new(alloc, stream_to(conference, leg), sources.as_slice())
}

/// Lets time go on to `now` for each of these legs.
fn expire_all(legs: &mut [Leg], now: u64, mixer: &mut Mixer)
    requires few { length legs.old ≤ MOST_LEGS }
    requires legs { length legs.old ≡ legs_of mixer.old }
    requires now { now < 2 ^ 47 }
    ensures legs { length legs.new ≡ length legs.old }
    ensures same { IsSame mixer.old mixer.new }
{
    for leg in 0..legs.len() {
        legs[leg].expire(leg as u8, now, mixer);
    }
}

/// Writes the packet of this post, and sends it.
fn send<T: Terminals>(post: &Post, outputs: &mut [Packetizer], terminals: &mut T)
    requires { IsPost (counts_of outputs.old) post.now }
    ensures { counts_of outputs.new ≡ counts_of outputs.old }
{
    let mut packet = Packet::new();
    let text = post.text.as_slice();
    let output = &mut outputs[post.terminal];
    let Ok(()) = output.packet(post.media, post.source, text, &mut packet) else {
        unreachable!()
    };
    terminals.send(post.terminal, packet.as_slice());
}

/// Sends what these posts are, one after the other.
fn send_all<T: Terminals>(posts: &[Post], outputs: &mut [Packetizer], terminals: &mut T)
    requires { ArePosts (counts_of outputs.old) posts.now }
    ensures { counts_of outputs.new ≡ counts_of outputs.old }
{
    for post in posts {
        send(post, outputs, terminals);
    }
}
