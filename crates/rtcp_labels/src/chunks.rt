//! What a packet has behind its head: the chunks of a source description, or sources that leave.
ghost use Rattle.std.specs.Prelude.{◌≡◌, ◌+◌, ◌*◌, ◌≤◌, length, Ok, None, IfOk, IfSome, option_map};
ghost use Rattle.wire_spec.specs.Steps.{Gives};
ghost use Rattle.wire_spec.specs.Rtcp.{item_at, items, fill, chunk_at, chunks, byes, leavings};
ghost use Rattle.rtcp_labels.specs.Views.{item_view, FitsIn};
ghost use Rattle.rtcp_labels.specs.Notes.{notes, all_noted, after, after_all, Noted};

use crate::notes::{ReadResult, note, note_item};
use wire_spec::{Event, Events, RtcpRefusal};

/// How many octets an SSRC has.
const SOURCE: usize = 4;

/// An item of a chunk.
#[derive(Clone, Copy)]
pub(crate) struct SdesItem<'a> {
    pub kind: u8,
    pub text: &'a [u8],
}

/// The item in front, or `None` where an octet 0 ends the items.
fn front_item(octets: &[u8]) -> ReadResult<Option<SdesItem<'_>>>
    ensures exact { Gives (option_map item_view) result (item_at octets.now) }
    ensures fits { IfOk result (λ item. IfSome item (FitsIn octets.now)) }
    ensures last { result ≡ Ok None → 1 ≤ length octets.now }
{
    if octets.is_empty() {
        return Err(RtcpRefusal::Items);
    }
    let kind = octets[0];
    if kind == 0 {
        return Ok(None);
    }
    if octets.len() < 2 {
        return Err(RtcpRefusal::Items);
    }
    let size = usize::from(octets[1]);
    if octets.len() < 2 + size {
        return Err(RtcpRefusal::Items);
    }
    Ok(Some(SdesItem {
        kind,
        text: &octets[2..2 + size],
    }))
}

/// Notes what the items of a source tell, and answers what is behind them.
fn read_items<'a>(
    ssrc: u32,
    octets: &'a [u8],
    out: &mut Events,
    many: &mut bool,
) -> ReadResult<&'a [u8]>
    ensures exact { Gives (λ rest. record { noted = notes out.new.items many.new; rest = rest.now }) result (after (notes out.old.items many.old) (items ssrc octets.now)) }
    ensures shorter { IfOk result (λ rest. length rest.now ≤ length octets.now) }
{
    let mut rest = octets;
    while let Some(item) = front_item(rest)? {
        note_item(ssrc, item.kind, item.text, out, many);
        rest = &rest[2 + item.text.len()..];
    }
    Ok(&rest[1..])
}

/// How many octets follow `size` up to a multiple of four.
fn fill_of(size: usize) -> usize
    ensures { result ≡ fill size }
{
    (4 - size % 4) % 4
}

/// Notes what a chunk tells, and answers what is behind it.
#[tactic(auto, unfolding(wire_spec::specs::Rtcp::chunk_at))]
fn read_chunk<'a>(octets: &'a [u8], out: &mut Events, many: &mut bool) -> ReadResult<&'a [u8]>
    ensures { Gives (λ rest. record { noted = notes out.new.items many.new; rest = rest.now }) result (after (notes out.old.items many.old) (chunk_at octets.now)) }
{
    if octets.len() < SOURCE {
        return Err(RtcpRefusal::Items);
    }
    let ssrc = u32::from_be_bytes([octets[0], octets[1], octets[2], octets[3]]);
    let items = &octets[SOURCE..];
    let rest = read_items(ssrc, items, out, many)?;
    let fill = fill_of(items.len() - rest.len());
    if rest.len() < fill {
        return Err(RtcpRefusal::Items);
    }
    Ok(&rest[fill..])
}

/// Notes what so many chunks tell.
pub(crate) fn read_chunks(
    count: u8,
    octets: &[u8],
    out: &mut Events,
    many: &mut bool,
) -> ReadResult<()>
    ensures { Gives (λ _. notes out.new.items many.new) result (after_all (notes out.old.items many.old) (chunks count octets.now)) }
{
    let mut rest = octets;
    let mut left = count;
    while left > 0 {
        rest = read_chunk(rest, out, many)?;
        left -= 1;
    }
    Ok(())
}

/// Notes that so many sources leave, which are there.
fn note_byes(count: u8, octets: &[u8], out: &mut Events, many: &mut bool)
    requires { 4 * count ≤ length octets.now }
    ensures { notes out.new.items many.new ≡ all_noted (notes out.old.items many.old) (byes count octets.now) }
{
    let mut rest = octets;
    let mut left = count;
    while left > 0 {
        let ssrc = u32::from_be_bytes([rest[0], rest[1], rest[2], rest[3]]);
        note(Event::Bye { ssrc }, out, many);
        rest = &rest[SOURCE..];
        left -= 1;
    }
}

/// Notes the sources that leave.
pub(crate) fn read_byes(
    count: u8,
    octets: &[u8],
    out: &mut Events,
    many: &mut bool,
) -> ReadResult<()>
    ensures { Gives (λ _. notes out.new.items many.new) result (after_all (notes out.old.items many.old) (leavings count octets.now)) }
{
    if octets.len() < SOURCE * usize::from(count) {
        return Err(RtcpRefusal::Bye);
    }
    note_byes(count, octets, out, many);
    Ok(())
}
