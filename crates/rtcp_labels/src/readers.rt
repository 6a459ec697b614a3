//! Reading RTCP packets.
ghost use Rattle.std.specs.Prelude.{◌≡◌, ◌+◌, ◌≤◌, [], length, OnErr, IfOk};
ghost use Rattle.wire_spec.specs.Steps.{Gives};
ghost use Rattle.wire_spec.specs.Rtcp.{events_of, packet_read, rtcp};
ghost use Rattle.rtcp_labels.specs.Views.{body_view};
ghost use Rattle.rtcp_labels.specs.Notes.{notes, after_all};

use crate::bodies::{Body, front_body};
use crate::chunks::{read_byes, read_chunks};
use crate::notes::ReadResult;
use wire_spec::{Events, RtcpRefusal};

/// The type of a source description.
const SDES: u8 = 202;

/// The type of a leaving.
const BYE: u8 = 203;

/// Notes what a packet tells.
fn read_body(body: &Body<'_>, out: &mut Events, many: &mut bool) -> ReadResult<()>
    ensures { Gives (λ _. notes out.new.items many.new) result (after_all (notes out.old.items many.old) (events_of (body_view body.now))) }
{
    if body.kind == SDES {
        return read_chunks(body.count, body.octets, out, many);
    }
    if body.kind == BYE {
        return read_byes(body.count, body.octets, out, many);
    }
    Ok(())
}

/// Reads the packet in front, behind the events of those before it, and answers what follows it.
fn read_packet<'a>(bytes: &'a [u8], out: &mut Events) -> ReadResult<&'a [u8]>
    requires { length out.old.items ≤ 64 }
    ensures exact { Gives (λ rest. record { events = out.new.items; rest = rest.now }) result (packet_read out.old.items bytes.now) }
    ensures shorter { IfOk result (λ rest. length rest.now + 4 ≤ length bytes.now) }
    ensures few { IfOk result (λ _. length out.new.items ≤ 64) }
{
    let body = front_body(bytes)?;
    let mut many = false;
    read_body(&body, out, &mut many)?;
    if many {
        return Err(RtcpRefusal::Many);
    }
    Ok(body.rest)
}

/// Reads packets up to the end, of which there is at least one.
fn read_packets(bytes: &[u8], out: &mut Events) -> ReadResult<()>
    requires { out.old.items ≡ [] }
    ensures { Gives (λ _. out.new.items) result (rtcp bytes.now) }
{
    let mut rest = read_packet(bytes, out)?;
    while !rest.is_empty() {
        rest = read_packet(rest, out)?;
    }
    Ok(())
}

/// Reads the RTCP packets of a datagram, with the first test that fails, in place of what was in `out`. After a refusal
/// `out` is empty. It takes no memory.
pub fn read_rtcp(bytes: &[u8], out: &mut Events) -> Result<(), RtcpRefusal>
    ensures exact { Gives (λ _. out.new.items) result (rtcp bytes.now) }
    ensures err { OnErr result (out.new.items ≡ []) }
{
    out.clear();
    let read = read_packets(bytes, out);
    if read.is_err() {
        out.clear();
    }
    read
}
