//! Where what is sent to the terminals of a live call goes.
ghost use Rattle.std.specs.Prelude.{◌≡◌, ◌≤◌, length};

use crate::{Listener, LiveFault};
use link_io::{Beat, LinkOut};
use mixer::Post;
use mixer_posts::PostSink;
use packetizer::Packetizer;
use rtt_base::{NoMemory, Packet};

/// The outbound ends of the legs' links, the outputs that write the packets to these, and the terminals that hear what the links are
/// given, in leg order.
pub struct FarEnds<O> {
    pub(crate) links: Vec<O>,
    pub(crate) outputs: Vec<Packetizer>,
    pub(crate) listeners: Vec<Listener>,
    /// Where a packet is written.
    pub(crate) packet: Packet,
    ghost few: { length links.items ≤ 64 },
    ghost wrote: { length outputs.items ≡ length links.items },
    ghost both: { length listeners.items ≡ length links.items },
}

impl<O: LinkOut> PostSink for FarEnds<O> {
    ghost use Rattle.std.proofs.Common.{rules};
    ghost use Rattle.std.specs.Prelude.{◌^◌};
    ghost use Rattle.rtt_live.specs.Ends.{WereCut, WereGiven, IsUnsent, addresses_of, counts_of, packets_in};

    type Fault = LiveFault;

    type Clock = O::Clock;

    ghost took = { λ ends s payload_types sent. WereGiven O.tells (packets_in O.given) O.faults ends s payload_types
        sent };

    ghost halted = { λ ends s payload_types sent now next. WereCut O.tells (packets_in O.given) ends s payload_types
        sent now next };

    ghost sources = { λ ends. counts_of ends };

    ghost addresses = { λ ends. addresses_of O.port O.given ends.links.items };

    ghost horizon = { 2 ^ 47 };

    ghost unsent = { λ ends why. IsUnsent O.faults ends why };

    fn send(&mut self, _now: u64, beat: &Beat<'_, O::Clock>, post: &Post) -> Result<(), LiveFault> {
        let leg = post.terminal as u8;
        let text = post.text.as_slice();
        self.packet.clear();
        let output = &mut self.outputs[post.terminal];
        let Ok(()) = output.packet(post.media, post.source, text, &mut self.packet) else {
            unreachable!()
        };
        let link = &mut self.links[post.terminal];
        let Ok(()) = link.give(beat, self.packet.as_slice()) else {
            return Err(LiveFault::Link { leg });
        };
        let listener = &mut self.listeners[post.terminal];
        match listener.hear(self.packet.as_slice()) {
            Ok(()) => Ok(()),
            Err(NoMemory) => Err(LiveFault::NoMemory),
        }
    }

    ghost in_time = { Prim.search rules };
}
