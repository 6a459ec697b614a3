//! The lines of records.
ghost use Rattle.std.specs.Prelude.{◌≡◌, ◌+◌, ◌≤◌, ◌++◌, flat_map, length, decimal, Bool, None};
ghost use Rattle.wire_spec.specs.Packets.{packet_of};
ghost use Rattle.wire_spec.specs.Text.{text_of};
ghost use Rattle.rtp_text.specs.Views.{IsView, blocks_in, packet_in};
ghost use Rattle.command_spec.specs.Listing.{bit, block_length, packet_line, refused_line, sent_line, record_line};
ghost use Rattle.recording_views.specs.Lines.{head_line};
ghost use Rattle.rtpdump_io.specs.Answers.{record_of, is_end};

use crate::list_lines::PrintLine;
use command_spec::fault_name;
use rtp_text::{TextView, read_text, view_text};
use rtpdump_io::DumpItem;
use rtt_base::{PayloadTypes, TextBlock, TextPacket};
use wire_spec::TextFault;

fn digit_of(marker_bit: bool) -> &'static [u8]
    ensures digit { result.now ≡ bit marker_bit }
    ensures short { length result.now ≡ 1 }
{
    if marker_bit { b"1" } else { b"0" }
}

/// Writes the lengths of the redundant blocks in front of the line, each behind a space.
fn write_lengths(line: &mut PrintLine, blocks: &[TextBlock])
    requires room { length line.old ≤ 100 }
    requires few { length blocks.now ≤ 9 }
    ensures lengths { line.new ≡ flat_map block_length blocks.now ++ line.old }
    ensures fits { length line.new ≤ 99 + length line.old }
{
    for block in blocks.iter().rev() {
        line.prepend_number(block.text.len() as u32);
        line.prepend(b" ");
    }
}

/// Writes the lengths of the blocks of a packet that is looked at where it lies, as `write_lengths` does.
fn write_sizes(line: &mut PrintLine, view: &TextView<'_>)
    requires room { length line.old ≤ 100 }
    requires view { IsView view.now }
    ensures lengths { line.new ≡ flat_map block_length (blocks_in view.now) ++ line.old }
    ensures fits { length line.new ≤ 99 + length line.old }
{
    line.prepend_number(view.primary.len() as u32);
    line.prepend(b" ");
    let mut left = view.count;
    while left > 0 {
        left -= 1;
        let header = view.header(left);
        line.prepend_number(u32::from(header.size));
        line.prepend(b" ");
    }
}

/// What a packet's line says before the lengths of its blocks.
#[derive(Drop)]
struct Head {
    /// When it came.
    at: u32,
    marker_bit: bool,
    seq: u16,
    timestamp: u32,
    ssrc: u32,
    source: u32,
}

/// Writes a packet's numbers in front of the lengths of its blocks.
#[inline(always)]
fn write_head(line: &mut PrintLine, head: &Head)
    requires { length line.old ≤ 120 }
    ensures { line.new ≡ head_line head.now ++ line.old }
{
    line.prepend(b" texts");
    line.prepend_number(head.source);
    line.prepend(b" source ");
    line.prepend_number(head.ssrc);
    line.prepend(b" ssrc ");
    line.prepend_number(head.timestamp);
    line.prepend(b" stamp ");
    line.prepend(digit_of(head.marker_bit));
    line.prepend(b" mark ");
    line.prepend_number(u32::from(head.seq));
    line.prepend(b" ");
    line.prepend_number(head.at);
}

/// Writes the line of a packet, which came at `at`.
fn write_packet(line: &mut PrintLine, at: u32, packet: &TextPacket)
    ensures { line.new ≡ packet_line at (packet_of packet.now) }
{
    line.clear();
    line.prepend(b"\n");
    line.prepend_number(packet.primary.len() as u32);
    line.prepend(b" ");
    write_lengths(line, packet.older.as_slice());
    let head = Head {
        at,
        marker_bit: packet.marker_bit,
        seq: packet.seq,
        timestamp: packet.timestamp,
        ssrc: packet.ssrc,
        source: packet.source,
    };
    write_head(line, &head);
}

/// Writes the line of a packet that is looked at where it lies, as `write_packet` does.
fn write_view(line: &mut PrintLine, at: u32, view: &TextView<'_>)
    requires { IsView view.now }
    ensures { line.new ≡ packet_line at (packet_in view.now) }
{
    line.clear();
    line.prepend(b"\n");
    write_sizes(line, view);
    let head = Head {
        at,
        marker_bit: view.marker_bit,
        seq: view.seq,
        timestamp: view.timestamp,
        ssrc: view.ssrc,
        source: view.source,
    };
    write_head(line, &head);
}

/// Writes the line of a packet that is refused.
fn write_refused(line: &mut PrintLine, at: u32, fault: TextFault)
    ensures { line.new ≡ refused_line at fault }
{
    line.clear();
    line.prepend(b"\n");
    line.prepend(fault_name(fault));
    line.prepend(b" refused ");
    line.prepend_number(at);
}

/// Writes the line of a record that is no whole packet: its time, and what it is with LF behind it.
fn write_word(line: &mut PrintLine, at: u32, word: &[u8])
    requires { length word.now ≤ 100 }
    ensures { line.new ≡ decimal at ++ word.now }
{
    line.clear();
    line.prepend(word);
    line.prepend_number(at);
}

/// Makes the lines of records, one after another, over one packet and one line.
#[derive(Drop)]
pub(crate) struct RecordLines {
    payload_types: PayloadTypes,
    packet: TextPacket,
    line: PrintLine,
}

impl RecordLines {
    pub(crate) fn new(payload_types: PayloadTypes) -> RecordLines
        ensures { result.payload_types ≡ payload_types }
    {
        RecordLines {
            payload_types,
            packet: TextPacket::default(),
            line: PrintLine::new(),
        }
    }

    /// The line that was made last.
    pub(crate) fn line(&self) -> &[u8]
        ensures { result.now ≡ self.now.line }
    {
        self.line.as_slice()
    }

    /// Makes the line of a packet that is refused, or whose texts are not all ASCII. Few are, so this stands out of the
    /// way of the others.
    #[inline(never)]
    fn make_read(&mut self, at: u32, octets: &[u8])
        ensures line { self.new.line ≡ sent_line at (text_of octets.now None self.old.payload_types) }
        ensures same_payload_types { self.new.payload_types ≡ self.old.payload_types }
    {
        match read_text(octets, None, self.payload_types, &mut self.packet) {
            Ok(()) => write_packet(&mut self.line, at, &self.packet),
            Err(fault) => write_refused(&mut self.line, at, fault),
        }
    }

    /// Makes the line of a record, whose octets are these where it is a packet.
    pub(crate) fn make(&mut self, item: DumpItem, octets: &[u8])
        requires { is_end item ≡ Bool.false }
        ensures line { self.new.line ≡ record_line self.old.payload_types (record_of item octets.now) }
        ensures same_payload_types { self.new.payload_types ≡ self.old.payload_types }
    {
        match item {
            DumpItem::Packet { at } => match view_text(octets, None, self.payload_types) {
                Some(view) => write_view(&mut self.line, at, &view),
                None => self.make_read(at, octets),
            },
            DumpItem::Rtcp { at } => write_word(&mut self.line, at, b" rtcp\n"),
            DumpItem::Cut { at } => write_word(&mut self.line, at, b" cut\n"),
            DumpItem::Large { at } => write_word(&mut self.line, at, b" large\n"),
            DumpItem::End => {}
        }
    }
}
