//! A whole recording in memory.
ghost use Rattle.std.specs.Prelude.{◌≡◌, ◌<◌, length, IfOk};
ghost use Rattle.sent_log.specs.States.{IsLawful, OfTerminal, recording_of};

use crate::SentLog;
use rtpdump_io::{write_opening, write_record};
use rtt_base::{Bytes, NoMemory, Packet};
use std::alloc::Global;

/// The octets of the recording of what was sent to the terminal.
pub fn in_memory(alloc: Global, log: &SentLog, terminal: usize) -> Result<Bytes, NoMemory>
    requires { terminal < length log.now }
    ensures { IfOk result (λ octets. OfTerminal log.now terminal (λ x. IsLawful x → octets ≡ recording_of x)) }
{
    let mut pen = log.pen(alloc, terminal)?;
    let mut packet = Packet::new();
    let mut octets = Bytes::new(alloc);
    write_opening(&mut octets)?;
    for number in 0..log.count(terminal) {
        let at = log.packet(terminal, number, &mut pen, &mut packet);
        write_record(at, packet.as_slice(), &mut octets)?;
    }
    Ok(octets)
}
