//! Writing a packet of what stands in a log.
ghost use Rattle.std.specs.Prelude.{◌≡◌, ◌+◌, ◌<◌, ◌≤◌, ◌^◌, ◌++◌, ◌∷◌, [], true, All, List, ℕ, length, max, not, IfSome, IsOk, OnOk};
ghost use Rattle.std.specs.List.{flat_map};
ghost use Rattle.rtt_base.specs.Buffers.{Appends};
ghost use Rattle.wire_spec.specs.SentPackets.{head_of, payload_sent, type_sent};
ghost use Rattle.wire_spec.specs.Red.{red_spelling};
ghost use Rattle.wire_spec.specs.Rtp.{rtp_written};
ghost use Rattle.rtp_text.specs.Headers.{spelled};
ghost use Rattle.rtp_text.specs.Writing.{packet_with};
ghost use Rattle.packetizer.specs.OutputSettings.{AreSettings};
ghost use Rattle.rtt_base.specs.declared.limits.TheConstants.{MOST_PACKET_OCTETS};
ghost use Rattle.sent_log.specs.Repeats.{AreBelow, last_kept};
ghost use Rattle.sent_log.specs.Lists.{list_at};
ghost use Rattle.sent_log.specs.Runs.{IsRun, empty_run};
ghost use Rattle.sent_log.specs.Writing.{HasRoom, HasText, HasTexts, blocks_in, have_text, head_in, header_of_sizes, kept_header, kept_text, kept_texts, packet_in, text_in};

use crate::repeats::{PacketKey, Repeats};
use crate::runs::Run;
use crate::terminals::{LoggedPacket, TerminalLog};
use crate::text_lists::TextList;
use byteorder::{BigEndian, ByteOrder};
use rtp_text::{RtpHead, TextHead, write_header};
use rtt_base::limits::MOST_PACKET_OCTETS;
use rtt_base::{OctetBuffer, PayloadTypes};

/// F, the bit of a header's first octet that tells a redundant header from the last.
const F: u8 = 128;

/// The header of a redundant block (RFC 2198, section 3).
fn header_octets(offset: u16, len: u16, t140: u8) -> [u8; 4]
    requires offset { offset < 2 ^ 14 }
    requires len { len < 2 ^ 10 }
    requires t140 { t140 < 2 ^ 7 }
    ensures { result ≡ header_of_sizes t140 offset len }
{
    let mut octets = [0; 4];
    octets[0] = F + t140;
    BigEndian::write_u24(&mut octets[1..], 1024 * u32::from(offset) + u32::from(len));
    octets
}

/// How many octets the text of a packet has, which is none where nothing is kept.
fn len_of(terminal: &TerminalLog, kept: &PacketKey) -> u16
    requires short { All (λ e. e.len < 1024) terminal.now.entries.items }
    requires below { kept.now.sent ≡ true → kept.now.number < length terminal.now.entries.items }
    ensures short { result < 1024 }
    ensures is { (texts : List (List ℕ)) → HasTexts texts terminal.now → result ≡ length (kept_text texts terminal.now kept.now) }
{
    if kept.sent {
        terminal.entries[kept.number].len
    } else {
        0
    }
}

/// The text of an entry.
fn text_of<'a>(terminal: &TerminalLog, entry: &LoggedPacket, texts: &'a [TextList]) -> &'a [u8]
    requires texts { HasTexts texts.now terminal.now }
    requires text { HasText texts.now terminal.now entry.now }
    ensures { result.now ≡ text_in texts.now terminal.now entry.now }
{
    let list = &texts[terminal.first + entry.source as usize];
    list.text(entry.place as usize, entry.len as usize)
}

/// Whether one of these packets has text.
pub fn any_text(terminal: &TerminalLog, kept: &[PacketKey]) -> bool
    requires short { All (λ e. e.len < 1024) terminal.now.entries.items }
    requires below { AreBelow (length terminal.now.entries.items) kept.now }
    ensures { (texts : List (List ℕ)) → HasTexts texts terminal.now → result ≡ have_text texts terminal.now kept.now }
{
    match kept {
        [first, rest @ ..] => len_of(terminal, first) > 0 || any_text(terminal, rest),
        [] => false,
    }
}

/// Follows the text of an entry.
fn follow_entry(entry: &LoggedPacket, run: &mut Run)
    ensures { (texts : List (List ℕ)) (t : TerminalLog) (before : List ℕ) → HasText texts t entry.now
        → IsRun (list_at texts (t.first + entry.now.source)) before run.old
        → IsRun (list_at texts (t.first + entry.now.source)) (before ++ text_in texts t entry.now) run.new }
{
    run.follow(entry.place as usize, entry.len as usize);
}

/// Follows the text of a packet, where one is kept. One of another source stands behind none of this one.
fn follow_kept(terminal: &TerminalLog, kept: &PacketKey, source: u16, run: &mut Run)
    requires below { kept.now.sent ≡ true → kept.now.number < length terminal.now.entries.items }
    ensures { (texts : List (List ℕ)) (before : List ℕ) → HasTexts texts terminal.now
        → IsRun (list_at texts (terminal.now.first + source)) before run.old
        → IsRun (list_at texts (terminal.now.first + source)) (before ++ kept_text texts terminal.now kept.now) run.new }
{
    if !kept.sent {
        return;
    }
    let entry = &terminal.entries[kept.number];
    if entry.source == source {
        follow_entry(entry, run);
    } else {
        run.joined = false;
    }
}

/// The text of a packet, which is empty where nothing is kept.
fn kept_text_of<'a>(terminal: &TerminalLog, kept: &PacketKey, texts: &'a [TextList]) -> &'a [u8]
    requires texts { HasTexts texts.now terminal.now }
    requires below { kept.now.sent ≡ true → kept.now.number < length terminal.now.entries.items }
    ensures { result.now ≡ kept_text texts.now terminal.now kept.now }
{
    if kept.sent {
        text_of(terminal, &terminal.entries[kept.number], texts)
    } else {
        &[]
    }
}

/// Appends the texts of these packets, one by one, and that of the entry.
fn write_each<O: OctetBuffer>(
    terminal: &TerminalLog,
    texts: &[TextList],
    older: &[PacketKey],
    entry: &LoggedPacket,
    out: &mut O,
) -> Result<(), O::Refusal>
    requires texts { HasTexts texts.now terminal.now }
    requires text { HasText texts.now terminal.now entry.now }
    requires below { AreBelow (length terminal.now.entries.items) older.now }
    ensures { Appends O.greatest (O.written out.old) (O.written out.new)
        (kept_texts texts.now terminal.now older.now ++ text_in texts.now terminal.now entry.now) result }
{
    let before = out.len();
    for kept in older {
        let text = kept_text_of(terminal, kept, texts);
        let appended = out.append(text);
        if appended.is_err() {
            out.truncate(before);
            return appended;
        }
    }
    let text = text_of(terminal, entry, texts);
    let last = out.append(text);
    if last.is_err() {
        out.truncate(before);
    }
    last
}

/// Appends the texts of these packets, and that of the entry: in one piece where they stand so.
fn write_texts<O: OctetBuffer>(
    terminal: &TerminalLog,
    texts: &[TextList],
    older: &[PacketKey],
    entry: &LoggedPacket,
    run: &Run,
    out: &mut O,
) -> Result<(), O::Refusal>
    requires texts { HasTexts texts.now terminal.now }
    requires text { HasText texts.now terminal.now entry.now }
    requires below { AreBelow (length terminal.now.entries.items) older.now }
    requires run { IsRun (list_at texts.now (terminal.now.first + entry.now.source))
        (kept_texts texts.now terminal.now older.now ++ text_in texts.now terminal.now entry.now) run.now }
    ensures { Appends O.greatest (O.written out.old) (O.written out.new)
        (kept_texts texts.now terminal.now older.now ++ text_in texts.now terminal.now entry.now) result }
{
    if !run.joined {
        return write_each(terminal, texts, older, entry, out);
    }
    let list = &texts[terminal.first + entry.source as usize];
    let all = list.text(run.from, run.to - run.from);
    out.append(all)
}

/// Appends the headers of the blocks that repeat these packets in one with this timestamp, and the last header. Their texts,
/// of this source, are followed.
fn write_headers<O: OctetBuffer>(
    terminal: &TerminalLog,
    older: &[PacketKey],
    source: u16,
    timestamp: u32,
    run: &mut Run,
    out: &mut O,
) -> Result<(), O::Refusal>
    requires t140 { terminal.now.settings.payload_types.t140 < 2 ^ 7 }
    requires short { All (λ e. e.len < 1024) terminal.now.entries.items }
    requires below { AreBelow (length terminal.now.entries.items) older.now }
    requires run { run.old ≡ empty_run }
    ensures headers { (texts : List (List ℕ)) → HasTexts texts terminal.now → Appends O.greatest (O.written out.old) (O.written out.new)
        (flat_map (kept_header texts terminal.now timestamp terminal.now.settings.payload_types.t140) older.now ++ terminal.now.settings.payload_types.t140 ∷ []) result }
    ensures run { (texts : List (List ℕ)) → HasTexts texts terminal.now → OnOk result
        (IsRun (list_at texts (terminal.now.first + source)) (kept_texts texts terminal.now older.now) run.new) }
{
    let t140 = terminal.settings.payload_types.t140;
    let before = out.len();
    for kept in older {
        follow_kept(terminal, kept, source, run);
        let len = len_of(terminal, kept);
        let header = header_octets(kept.offset(timestamp), len, t140);
        let appended = out.append(&header);
        if appended.is_err() {
            out.truncate(before);
            return appended;
        }
    }
    let last = out.append(&[t140]);
    if last.is_err() {
        out.truncate(before);
    }
    last
}

/// Appends a payload in red form.
fn write_red<O: OctetBuffer>(
    terminal: &TerminalLog,
    texts: &[TextList],
    older: &[PacketKey],
    entry: &LoggedPacket,
    timestamp: u32,
    out: &mut O,
) -> Result<(), O::Refusal>
    requires t140 { terminal.now.settings.payload_types.t140 < 2 ^ 7 }
    requires short { All (λ e. e.len < 1024) terminal.now.entries.items }
    requires texts { HasTexts texts.now terminal.now }
    requires text { HasText texts.now terminal.now entry.now }
    requires below { AreBelow (length terminal.now.entries.items) older.now }
    ensures { Appends O.greatest (O.written out.old) (O.written out.new)
        (red_spelling terminal.now.settings.payload_types.t140 (blocks_in texts.now terminal.now timestamp older.now) (text_in texts.now terminal.now entry.now)) result }
{
    let before = out.len();
    let mut run = Run::new();
    let headed = write_headers(terminal, older, entry.source, timestamp, &mut run, out);
    if headed.is_err() {
        return headed;
    }
    follow_entry(entry, &mut run);
    let written = write_texts(terminal, texts, older, entry, &run, out);
    if written.is_err() {
        out.truncate(before);
    }
    written
}

/// Appends a payload: in red form where there is a block to be repeated, else in plain form.
fn write_payload<O: OctetBuffer>(
    terminal: &TerminalLog,
    texts: &[TextList],
    older: &[PacketKey],
    entry: &LoggedPacket,
    timestamp: u32,
    out: &mut O,
) -> Result<(), O::Refusal>
    requires t140 { terminal.now.settings.payload_types.t140 < 2 ^ 7 }
    requires short { All (λ e. e.len < 1024) terminal.now.entries.items }
    requires texts { HasTexts texts.now terminal.now }
    requires text { HasText texts.now terminal.now entry.now }
    requires below { AreBelow (length terminal.now.entries.items) older.now }
    ensures { Appends O.greatest (O.written out.old) (O.written out.new)
        (payload_sent terminal.now.settings.payload_types (blocks_in texts.now terminal.now timestamp older.now) (text_in texts.now terminal.now entry.now)) result }
{
    if older.is_empty() {
        out.append(text_of(terminal, entry, texts))
    } else {
        write_red(terminal, texts, older, entry, timestamp, out)
    }
}

/// The payload type of a packet that repeats these.
fn payload_type(older: &[PacketKey], payload_types: PayloadTypes) -> u8
    requires t140 { payload_types.t140 < 2 ^ 7 }
    requires red { payload_types.red < 2 ^ 7 }
    ensures fits { result < 2 ^ 7 }
    ensures is { (texts : List (List ℕ)) (t : TerminalLog) (timestamp : ℕ) → result ≡ type_sent payload_types (blocks_in texts t timestamp older.now) }
{
    match older {
        [_, ..] => payload_types.red,
        [] => payload_types.t140,
    }
}

/// The header of a packet that repeats these.
fn rtp_head(head: &TextHead, older: &[PacketKey], payload_types: PayloadTypes) -> RtpHead
    requires t140 { payload_types.t140 < 2 ^ 7 }
    requires red { payload_types.red < 2 ^ 7 }
    ensures value { (texts : List (List ℕ)) (t : TerminalLog) (text : List ℕ)
        → spelled result ≡ head_of payload_types (packet_with head.now (blocks_in texts t head.now.timestamp older.now) text) }
    ensures fits { result.pt < 2 ^ 7 }
{
    let pt = payload_type(older, payload_types);
    let csrc = if head.source == head.ssrc {
        None
    } else {
        Some(head.source)
    };
    RtpHead {
        marker_bit: head.marker_bit,
        pt,
        seq: head.seq,
        timestamp: head.timestamp,
        ssrc: head.ssrc,
        csrc,
    }
}

/// Appends a header: of 16 octets where it names a source, else of 12.
fn write_head<O: OctetBuffer>(rtp: &RtpHead, out: &mut O) -> Result<(), O::Refusal>
    requires { rtp.now.pt < 2 ^ 7 }
    ensures { Appends O.greatest (O.written out.old) (O.written out.new) (rtp_written (spelled rtp.now) []) result }
{
    match rtp.csrc {
        None => write_header(&RtpHead { csrc: None, ..*rtp }, out),
        Some(source) => {
            let named = RtpHead {
                csrc: Some(source),
                ..*rtp
            };
            write_header(&named, out)
        }
    }
}

/// Appends the packet of an entry that repeats these, at most three. A buffer with room for 4224 octets more does not refuse it.
#[inline(always)]
fn write_packet<O: OctetBuffer>(
    terminal: &TerminalLog,
    texts: &[TextList],
    older: &[PacketKey],
    entry: &LoggedPacket,
    head: &TextHead,
    out: &mut O,
) -> Result<(), O::Refusal>
    requires settings { AreSettings terminal.now.settings }
    requires few { length older.now ≤ 3 }
    requires short { All (λ e. e.len < 1024) terminal.now.entries.items }
    requires texts { HasTexts texts.now terminal.now }
    requires text { HasText texts.now terminal.now entry.now }
    requires below { AreBelow (length terminal.now.entries.items) older.now }
    ensures packet { Appends O.greatest (O.written out.old) (O.written out.new) (packet_in texts.now terminal.now older.now entry.now head.now) result }
    ensures fits { IfSome O.greatest (λ most. length (O.written out.old) + MOST_PACKET_OCTETS ≤ most → IsOk result) }
    ensures most { OnOk result (length (O.written out.new) ≤ length (O.written out.old) + MOST_PACKET_OCTETS) }
{
    let before = out.len();
    let rtp = rtp_head(head, older, terminal.settings.payload_types);
    let headed = write_head(&rtp, out);
    if headed.is_err() {
        return headed;
    }
    let written = write_payload(terminal, texts, older, entry, head.timestamp, out);
    if written.is_err() {
        out.truncate(before);
    }
    written
}

/// Appends the packet of an entry, of a source of which these are the last packets, with this sequence number and timestamp.
#[inline(always)]
pub fn append_packet<O: OctetBuffer>(
    terminal: &TerminalLog,
    texts: &[TextList],
    repeats: &Repeats,
    entry: &LoggedPacket,
    seq: u16,
    timestamp: u32,
    out: &mut O,
)
    requires settings { AreSettings terminal.now.settings }
    requires short { All (λ e. e.len < 1024) terminal.now.entries.items }
    requires texts { HasTexts texts.now terminal.now }
    requires text { HasText texts.now terminal.now entry.now }
    requires below { AreBelow (length terminal.now.entries.items) repeats.now }
    requires room { HasRoom O.greatest (O.written out.old) }
    ensures packet { O.written out.new ≡ O.written out.old
        ++ packet_in texts.now terminal.now (last_kept terminal.now.settings.generations repeats.now) entry.now
        (head_in terminal.now (not (have_text texts.now terminal.now
        (last_kept (max 1 terminal.now.settings.generations) repeats.now))) seq timestamp entry.now.source) }
    ensures some { length (O.written out.old) < length (O.written out.new) }
    ensures fits { length (O.written out.new) ≤ length (O.written out.old) + MOST_PACKET_OCTETS }
{
    let generations = usize::from(terminal.settings.generations);
    let spoke = any_text(terminal, repeats.last(generations.max(1)));
    let head = TextHead {
        marker_bit: !spoke,
        seq,
        timestamp,
        ssrc: terminal.settings.ssrc,
        source: terminal.sources[entry.source as usize],
    };
    let older = repeats.last(generations);
    let Ok(()) = write_packet(terminal, texts, older, entry, &head, out) else {
        unreachable!()
    };
}
