//! What is heard of a packet goes into the recording of its source.
ghost use Rattle.std.specs.Prelude.{◌≡◌, ◌≤◌, ◌<◌, ◌^◌, ◌==◌, [], ◌∷◌, length, position, All, Some, OnOk};
ghost use Rattle.std.specs.Option.{ForSome};
ghost use Rattle.receiver.specs.Pieces.{left_of};
ghost use Rattle.receiver.specs.Stands.{latest_number};
ghost use Rattle.cascade.specs.Dividing.{AddsTexts, Divides, TakesDue};
ghost use Rattle.rtt_base.specs.declared.limits.TheConstants.{MOST_TEXT_OCTETS};

use crate::splitters::SourceRecording;
use receiver::{Receiver, TextCursor, is_blank};
use reorder_buffer::Due;
use rtt_base::{NoMemory, Packet, TextPacket};

/// The place of the source among these.
fn place_of(splitters: &[SourceRecording], source: u32) -> Option<usize>
    ensures { result ≡ position (λ s. s.source == source) splitters.now }
{
    splitters.iter().position(|s| s.source == source)
}

/// Adds a text, unless it is a keep-alive.
fn add_lively(
    splitter: &mut SourceRecording,
    ready: u64,
    text: &[u8],
    out: &mut Packet,
) -> Result<(), NoMemory>
    requires t140 { splitter.old.payload_types.t140 < 2 ^ 7 }
    requires few { length text.now ≤ MOST_TEXT_OCTETS }
    ensures adds { OnOk result (AddsTexts splitter.old splitter.new ready (text.now ∷ [])) }
    ensures payload_types { splitter.new.payload_types ≡ splitter.old.payload_types }
{
    if is_blank(text) {
        return Ok(());
    }
    splitter.add(ready, text, out)
}

/// Adds what is left of a packet, text by text, by way of `out`.
fn add_piece(
    splitter: &mut SourceRecording,
    ready: u64,
    mut piece: TextCursor,
    packet: &TextPacket,
    out: &mut Packet,
) -> Result<(), NoMemory>
    requires t140 { splitter.old.payload_types.t140 < 2 ^ 7 }
    requires short { length packet.now.primary ≤ MOST_TEXT_OCTETS }
    ensures adds { OnOk result (AddsTexts splitter.old splitter.new ready (left_of piece packet.now)) }
    ensures payload_types { splitter.new.payload_types ≡ splitter.old.payload_types }
{
    while let Some(text) = piece.next(packet) {
        add_lively(splitter, ready, text, out)?;
    }
    Ok(())
}

/// Takes the packet that is due, and adds what is heard of it to the recording of its source, if there is one.
pub fn divide(
    receiver: &mut Receiver,
    splitters: &mut [SourceRecording],
    due: Due,
    packet: &TextPacket,
    out: &mut Packet,
) -> Result<(), NoMemory>
    requires short { length packet.now.primary ≤ MOST_TEXT_OCTETS }
    requires rises { ForSome (latest_number receiver.old) (λ latest. latest < due.number) }
    requires t140 { All (λ s. s.payload_types.t140 < 2 ^ 7) splitters.old }
    ensures latest { latest_number receiver.new ≡ Some due.number }
    ensures stands { TakesDue receiver.old receiver.new due packet.now }
    ensures divides { OnOk result (Divides receiver.old splitters.old splitters.new due packet.now) }
{
    let piece = receiver.take_piece(due.number, packet);
    let Some(place) = place_of(splitters, packet.source) else {
        return Ok(());
    };
    add_piece(&mut splitters[place], due.ready, piece, packet, out)
}
