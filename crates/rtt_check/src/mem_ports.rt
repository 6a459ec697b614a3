//! Ports in memory.
ghost use Rattle.std.specs.Prelude.{◌≡◌, ◌∷◌, [], OnOk};
ghost use Rattle.rtt_check.specs.MemPorts.{answer_of};

use crate::Ports;
use report_spec::PortFault;
use rtt_base::NoMemory;
use std::alloc::Global;

/// A port that can't be had, and why.
#[derive(Clone, Copy, Debug, PartialEq, Eq)]
pub struct MemAnswer {
    pub port: u16,
    pub fault: PortFault,
}

/// Ports in memory, and those that can't be had, for whichever peer.
#[derive(Debug, Drop)]
pub struct MemPorts {
    refused: Vec<MemAnswer>,
    kept: u64,
}

/// Why a port can't be had, where it can't.
fn answer_of(refused: &[MemAnswer], port: u16) -> Option<PortFault>
    ensures { result ≡ answer_of refused.now port }
{
    match refused {
        [first, more @ ..] => {
            if first.port == port {
                return Some(first.fault);
            }
            answer_of(more, port)
        }
        [] => None,
    }
}

impl Ports for MemPorts {
    ghost tells = { Unit {0} };

    ghost answers = { λ ports port to. answer_of ports.refused.items port };

    ghost kept = { λ ports. ports.kept };

    fn try_port(&mut self, port: u16, _to: &str) -> Result<Option<PortFault>, NoMemory> {
        let found = answer_of(self.refused.as_slice(), port);
        if found.is_none() {
            self.kept = self.kept.saturating_add(1);
        }
        Ok(found)
    }

    fn let_go(&mut self) {
        self.kept = 0;
    }
}

impl MemPorts {
    /// Ports of which each can be had. It takes no memory.
    pub fn new(alloc: Global) -> MemPorts
        ensures { result.refused.items ≡ [] }
    {
        MemPorts {
            refused: Vec::new(alloc),
            kept: 0,
        }
    }

    /// This port can't be had, for this cause.
    pub fn refuse(&mut self, port: u16, fault: PortFault) -> Result<(), NoMemory>
        ensures { OnOk result (⟦<MemPorts as Ports>⟧.answers self.new port [] ≡ answer_of self.new.refused.items port) }
    {
        match self.refused.push(MemAnswer { port, fault }) {
            Ok(()) => Ok(()),
            Err(_) => Err(NoMemory),
        }
    }

    /// How many are kept.
    pub fn kept(&self) -> u64
        ensures { result ≡ ⟦<MemPorts as Ports>⟧.kept self.now }
    {
        self.kept
    }
}
