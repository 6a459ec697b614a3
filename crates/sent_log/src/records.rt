//! The records of a recording, page by page.
ghost use Rattle.std.specs.Prelude.{◌≡◌, ◌<◌, ◌≤◌, ◌+◌, ◌++◌, length, OnOk, OnErr};
ghost use Rattle.std.specs.Int.{w16, w32, to_be_bytes};
ghost use Rattle.rtt_io.specs.Counts.{Rose};
ghost use Rattle.rtt_io.specs.Fronts.{TakesFront};
ghost use Rattle.wire_spec.specs.Dump.{dump_opening};
ghost use Rattle.sent_log.specs.States.{IsLawful, OfTerminal, recording_of};
ghost use Rattle.sent_log.specs.Pens.{AppendsRecord, IsPenOf, IsPenTo};
ghost use Rattle.sent_log.specs.FileWriting.{HoldsRest};
ghost use Rattle.sent_log.specs.declared.pages.TheConstants.{PAGE_OCTETS};

use crate::pages::{PAGE_OCTETS, Page};
use crate::{Pen, SentLog};
use byteorder::{BigEndian, ByteOrder};
use rtpdump_io::write_opening;
use rtt_base::limits::MOST_PACKET_OCTETS;
use rtt_base::{Failed, OctetBuffer};
use rtt_io::Sink;

/// The most octets of a record: its head, and a packet.
const MOST_RECORD_OCTETS: usize = 8 + MOST_PACKET_OCTETS;

/// What stands in place of a record's head until its packet is there.
const NO_HEAD: [u8; 8] = [0; 8];

/// Begins a recording.
fn begin(page: &mut Page)
    ensures { page.new ≡ dump_opening }
{
    page.clear();
    let Ok(()) = write_opening(page) else {
        unreachable!();
    };
}

/// The head of the record of a packet with so many octets that was sent at `at` (milliseconds).
fn record_head(at: u32, size: u16) -> [u8; 8]
    requires { size ≤ 65527 }
    ensures { result ≡ to_be_bytes w16 (size + 8) ++ (to_be_bytes w16 size ++ to_be_bytes w32 at) }
{
    let mut octets = [0; 8];
    BigEndian::write_u16(&mut octets, size + 8);
    BigEndian::write_u16(&mut octets[2..], size);
    BigEndian::write_u32(&mut octets[4..], at);
    octets
}

/// Appends eight octets, where the head of a record is to stand.
fn leave_head(page: &mut Page)
    requires room { length page.old + 8 ≤ PAGE_OCTETS }
    ensures hole { page.new ≡ page.old ++ NO_HEAD }
    ensures size { length page.new ≡ length page.old + 8 }
{
    let Ok(()) = page.append(&NO_HEAD) else {
        unreachable!();
    };
}

/// Appends the record of the packet with this number that was sent to the terminal, by a pen that has written those before it:
/// its head once its packet is there.
#[inline(always)]
fn put_record(log: &SentLog, terminal: usize, number: usize, pen: &mut Pen, page: &mut Page)
    requires terminal { terminal < length log.now }
    requires number { OfTerminal log.now terminal (λ x. number < length x.sent) }
    requires pen { OfTerminal log.now terminal (λ x. IsPenOf x number pen.old) }
    requires room { length page.old + MOST_RECORD_OCTETS ≤ PAGE_OCTETS }
    ensures record { AppendsRecord log.now terminal number page.old page.new }
    ensures pen { OfTerminal log.now terminal (λ x. IsPenOf x (number + 1) pen.new) }
{
    let start = page.len();
    leave_head(page);
    let front = page.len();
    let at = log.append_packet(terminal, number, pen, page);
    let end = page.len();
    let head = record_head(at, (end - front) as u16);
    page.overwrite(start, &head);
}

/// Gives the page to the sink and empties it, where it has no room for one more record. After `Failed` the sink took some of
/// the page from the front, or nothing.
fn turn_page<K: Sink>(page: &mut Page, sink: &mut K) -> Result<(), Failed>
    ensures room { OnOk result (length page.new + MOST_RECORD_OCTETS ≤ PAGE_OCTETS) }
    ensures never_falls { K.faults sink.old ≤ K.faults sink.new }
    ensures failed { OnErr result (Rose (K.faults sink.old) (K.faults sink.new)) }
    ensures same_name { K.name sink.new ≡ K.name sink.old }
    ensures calm { OnOk result (K.faults sink.new ≡ K.faults sink.old) }
    ensures held { K.tells → OnOk result (HoldsRest (K.took sink.old) (K.took sink.new) page.new page.old) }
    ensures prefix { K.tells → OnErr result (TakesFront (K.took sink.old) (K.took sink.new) page.old) }
    ensures partly { K.tells → OnErr result (TakesFront (K.took sink.old) (K.stored sink.new) page.old) }
{
    if page.len() + MOST_RECORD_OCTETS <= PAGE_OCTETS {
        return Ok(());
    }
    let taken = sink.write_part(page.as_slice());
    if taken.is_err() {
        return taken;
    }
    page.clear();
    Ok(())
}

/// Gives the last page to the sink, which stores all that it took. After `Failed` it took some of the page from the front, or
/// nothing.
fn store_page<K: Sink>(page: &Page, sink: &mut K) -> Result<(), Failed>
    ensures never_falls { K.faults sink.old ≤ K.faults sink.new }
    ensures failed { OnErr result (Rose (K.faults sink.old) (K.faults sink.new)) }
    ensures same_name { K.name sink.new ≡ K.name sink.old }
    ensures calm { OnOk result (K.faults sink.new ≡ K.faults sink.old) }
    ensures appended { K.tells → OnOk result (K.took sink.new ≡ K.took sink.old ++ page.now) }
    ensures prefix { K.tells → OnErr result (TakesFront (K.took sink.old) (K.took sink.new) page.now) }
    ensures stores { K.tells → OnOk result (K.stored sink.new ≡ K.took sink.new) }
    ensures partly { K.tells → OnErr result (TakesFront (K.took sink.old) (K.stored sink.new) page.now) }
{
    sink.write_all(page.as_slice())
}

/// Writes the recording of what was sent to the terminal, by a pen to it, and stores it. After `Failed` the sink took some
/// of the octets from the front, or none.
pub fn write_recording<K: Sink>(
    log: &SentLog,
    terminal: usize,
    pen: &mut Pen,
    page: &mut Page,
    sink: &mut K,
) -> Result<(), Failed>
    requires terminal { terminal < length log.now }
    requires lawful { OfTerminal log.now terminal IsLawful }
    requires pen { OfTerminal log.now terminal (λ x. IsPenTo x pen.old) }
    ensures pen { OfTerminal log.now terminal (λ x. IsPenTo x pen.new) }
    ensures never_falls { K.faults sink.old ≤ K.faults sink.new }
    ensures failed { OnErr result (Rose (K.faults sink.old) (K.faults sink.new)) }
    ensures same_name { K.name sink.new ≡ K.name sink.old }
    ensures calm { OnOk result (K.faults sink.new ≡ K.faults sink.old) }
    ensures appended { K.tells → OfTerminal log.now terminal (λ x.
        OnOk result (K.took sink.new ≡ K.took sink.old ++ recording_of x)) }
    ensures prefix { K.tells → OfTerminal log.now terminal (λ x.
        OnErr result (TakesFront (K.took sink.old) (K.took sink.new) (recording_of x))) }
    ensures stores { K.tells → OnOk result (K.stored sink.new ≡ K.took sink.new) }
    ensures partly { K.tells → OfTerminal log.now terminal (λ x.
        OnErr result (TakesFront (K.took sink.old) (K.stored sink.new) (recording_of x))) }
{
    log.restart(terminal, pen);
    begin(page);
    for number in 0..log.count(terminal) {
        let turned = turn_page(page, sink);
        if turned.is_err() {
            return turned;
        }
        put_record(log, terminal, number, pen, page);
    }
    store_page(page, sink)
}
