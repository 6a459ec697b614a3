//! Outbound ends in memory.
ghost use Rattle.std.specs.Prelude.{◌≡◌, [], ◌∷◌, ◌++◌, OnOk, OnErr};
ghost use Rattle.link_io.specs.GivenTold.{gives_told};

use crate::{Beat, LinkOut, MemLinks};
use rtt_base::{Bytes, Failed, NoMemory};
use rtt_io::FailingCalls;
use std::alloc::Global;

/// A packet that a link was given, and how often the clock had paused.
#[derive(Debug, Drop)]
pub struct GivenPacket {
    pub pauses: u64,
    pub packet: Bytes,
}

/// An outbound end in memory, of whose gives some are to fail. One for which there is no memory fails too.
#[derive(Debug, Drop)]
pub struct MemOut {
    pub(crate) alloc: Global,
    pub(crate) port: u16,
    pub(crate) given: Vec<GivenPacket>,
    pub(crate) gives: FailingCalls,
    pub(crate) faults: u64,
}

impl LinkOut for MemOut {
    type Clock = MemLinks;

    ghost use Rattle.link_io.specs.GivenTold.{gives_told};

    ghost tells = { Unit {0} };

    ghost given = { λ link. gives_told link.given.items };

    ghost faults = { λ link. link.faults };

    ghost port = { λ link. link.port };

    fn give(&mut self, beat: &Beat<'_, Self::Clock>, packet: &[u8]) -> Result<(), Failed> {
        if self.gives.next_fails() || self.keep(beat, packet).is_err() {
            self.faults = self.faults.saturating_add(1);
            return Err(Failed);
        }
        Ok(())
    }
}

impl MemOut {
    #[tactic(auto, using(crate::proofs::Keeping::given_more))]
    fn keep(&mut self, beat: &Beat<'_, MemLinks>, packet: &[u8]) -> Result<(), NoMemory>
        ensures ok { OnOk result (gives_told self.new.given.items ≡ gives_told self.old.given.items ++ (beat.now.pauses, packet.now) ∷ []) }
        ensures err { OnErr result (self.new.given.items ≡ self.old.given.items) }
        ensures faults { self.new.faults ≡ self.old.faults }
        ensures port { self.new.port ≡ self.old.port }
    {
        let mut copy = Bytes::new(self.alloc);
        copy.append(packet)?;
        self.given.push(GivenPacket {
            pauses: beat.pauses,
            packet: copy,
        })?;
        Ok(())
    }
}
