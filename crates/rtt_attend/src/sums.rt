//! What is counted of one input.
ghost use Rattle.std.specs.Prelude.{◌≡◌};
ghost use Rattle.view_spec.specs.Seen.{Text, fate_of};
ghost use Rattle.view_spec.specs.Seen as seen;
ghost use Rattle.rtt_attend.specs.Counted.{CountsFate, IsFew, fate_in, fate_of_fault, text_from};

use crate::inputs::Sender;
use file_spec::primary_limit;
use rtp_text::read_text_within;
use rtpdump_io::DumpItem;
use rtt_base::TextPacket;
use view_spec::Tally;
use wire_spec::TextFault;

/// Counts a packet of text of the sender.
fn count_text(tally: &mut Tally)
    requires few { IsFew tally.old }
    ensures { CountsFate Text tally.old tally.new }
{
    tally.came += 1;
    tally.text += 1;
}

/// Counts a packet that is refused, or one of another sender.
fn count_fault(fault: TextFault, tally: &mut Tally)
    requires few { IsFew tally.old }
    ensures { CountsFate (fate_of_fault fault) tally.old tally.new }
{
    tally.came += 1;
    match fault {
        TextFault::Foreign => tally.foreign += 1,
        _ => tally.refused += 1,
    }
}

/// Counts a record whose octets are not there.
fn count_refused(tally: &mut Tally)
    requires few { IsFew tally.old }
    ensures { CountsFate seen.Refused tally.old tally.new }
{
    tally.came += 1;
    tally.refused += 1;
}

/// Counts a packet.
fn count_packet(octets: &[u8], sender: Sender, text: &mut TextPacket, tally: &mut Tally)
    requires few { IsFew tally.old }
    ensures { CountsFate (fate_of (text_from sender octets.now)) tally.old tally.new }
{
    match read_text_within(
        primary_limit(sender.long),
        octets,
        Some(sender.ssrc),
        sender.payload_types,
        text,
    ) {
        Ok(()) => count_text(tally),
        Err(fault) => count_fault(fault, tally),
    }
}

/// Counts a record, whose octets these are where it is a packet. RTCP is no packet.
pub(crate) fn count_item(
    item: DumpItem,
    octets: &[u8],
    sender: Sender,
    text: &mut TextPacket,
    tally: &mut Tally,
)
    requires few { IsFew tally.old }
    ensures { CountsFate (fate_in sender item octets.now) tally.old tally.new }
{
    match item {
        DumpItem::Packet { at: _ } => count_packet(octets, sender, text, tally),
        DumpItem::Cut { at: _ } | DumpItem::Large { at: _ } => count_refused(tally),
        DumpItem::Rtcp { at: _ } | DumpItem::End => {}
    }
}
