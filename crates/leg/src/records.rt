//! What an ear is told of a recording.
ghost use Rattle.std.specs.Prelude.{◌≡◌, ◌≢◌, ◌≤◌, ◌<◌, ◌+◌, [], ◌∷◌, true, false, IsUtf8};
ghost use Rattle.rtpdump_io.specs.Answers.{is_end};
ghost use Rattle.rtpdump_io.specs.declared.items.DumpItem.{DumpItem};
ghost use Rattle.receiver.specs.Hears.{Becomes, AllReady, arrival_count, settings_of, is_clear, is_finished, is_quiet};
ghost use Rattle.receiver.specs.Hears.{IsGiving};
ghost use Rattle.receiver.specs.declared.answers.PlainAnswer.{PlainAnswer};
ghost use Rattle.wire_spec.specs.Packets.{has_text};
ghost use Rattle.stream_spec.specs.Ready.{chunk_of};
ghost use Rattle.leg.specs.Items.{after_item, GivesItem};
ghost use Rattle.rtt_base.specs.declared.limits.TheConstants.{MOST_ARRIVALS};

use receiver::{Ear, PlainAnswer};
use rtpdump_io::DumpItem;
use rtt_base::Chunk;

/// Hears a record's packet where it lies, if the ear does so, and puts its text in place of what is in `chunk`.
#[inline(always)]
pub fn hear_plain_item(
    ear: &mut Ear,
    item: DumpItem,
    octets: &[u8],
    chunk: &mut Chunk,
) -> PlainAnswer
    requires quiet { is_quiet ear.old ≡ true }
    requires few { arrival_count ear.old < MOST_ARRIVALS }
    requires giving { ∥ IsGiving ear.old ∥₁ }
    ensures some { result ≡ PlainAnswer.Chunk → GivesItem ear.old ear.new item octets.now (chunk_of chunk.new ∷ []) }
    ensures none { result ≡ PlainAnswer.Nothing → GivesItem ear.old ear.new item octets.now [] }
    ensures unchanged { result ≡ PlainAnswer.NotPlain → ear.new ≡ ear.old }
    ensures text { result ≡ PlainAnswer.Chunk → has_text chunk.new.text ≡ true }
    ensures utf8 { result ≡ PlainAnswer.Chunk → IsUtf8 chunk.new.text }
    ensures quiet { is_quiet ear.new ≡ true }
    ensures packet { result ≢ PlainAnswer.NotPlain → is_end item ≡ false }
    ensures settings { settings_of ear.new ≡ settings_of ear.old }
    ensures arrivals { arrival_count ear.new ≤ arrival_count ear.old + 1 }
    ensures finished { is_finished ear.new ≡ is_finished ear.old }
{
    match item {
        DumpItem::Packet { at } => ear.hear_plain_chunk(u64::from(at), octets, chunk),
        DumpItem::Rtcp { .. } | DumpItem::Cut { .. } | DumpItem::Large { .. } | DumpItem::End =>
            PlainAnswer::NotPlain,
    }
}

/// Tells the ear of a record, whose octets are these, or of the end.
pub fn hear_item(ear: &mut Ear, item: DumpItem, octets: &[u8])
    requires quiet { is_quiet ear.old ≡ true }
    requires few { arrival_count ear.old < MOST_ARRIVALS }
    requires once { is_finished ear.old ≡ false }
    ensures becomes { Becomes ear.old ear.new (λ settings story. after_item settings story item octets.now) }
    ensures all { item ≡ DumpItem.End → AllReady ear.old }
    ensures settings { settings_of ear.new ≡ settings_of ear.old }
    ensures arrivals { arrival_count ear.new ≤ arrival_count ear.old + 1 }
    ensures finished { is_finished ear.new ≡ is_end item }
{
    match item {
        DumpItem::Packet { at } => {
            let _refused = ear.hear(u64::from(at), octets);
        }
        DumpItem::Rtcp { .. } | DumpItem::Cut { .. } | DumpItem::Large { .. } => {}
        DumpItem::End => ear.finish(),
    }
}
