//! Hearing, source by source (RFC 4103, section 4).
ghost use Rattle.std.specs.Prelude.{◌≡◌, ◌≢◌, ◌≤◌, ◌<◌, ◌+◌, ◌^◌, ◌==◌, ℕ, Bool, List, [], ◌∷◌, ◌++◌, length, position, All, AllPairs, IfOk, IfSome, OnOk, IsTrue, if◌then◌else◌};
ghost use Rattle.std.specs.List.{concat};
ghost use Rattle.std.specs.Option.{ForSome};
ghost use Rattle.stream_spec.specs.Numbering.{Numbered};
ghost use Rattle.stream_spec.specs.Hearing.{heard_by, marker, oldest_offset};
ghost use Rattle.receiver.specs.Stands.{Stands, used_packet, latest_number};
ghost use Rattle.receiver.specs.Steps.{missing_up_to, missing_then, is_new_since, is_marked_since, new_since, older_since, told_since};
ghost use Rattle.receiver.specs.Pieces.{left_of};
ghost use Rattle.receiver.specs.Each.{one_if, sources_count, AreHeard, LeavesAdded};
ghost use Rattle.receiver.specs.Plain.{TakesView, HearsView, HearsPrimary, gives_since, any_gives_since, IsPlain, IsPlainAt, IsKept};
ghost use Rattle.rtp_text.specs.Views.{headers_in, IsView};
ghost use Rattle.rtt_base.specs.declared.limits.TheConstants.{MOST_SOURCES};

use crate::{SourceText, TextCursor};
use rtp_text::TextView;
use rtt_base::{Bytes, NoMemory, Text, TextBlock, TextPacket, after};
use std::alloc::Global;
use wire_spec::RedHeader;

/// U+FFFD, which stands where text may be missing (T.140, Addendum 1).
pub(crate) const MARKER: [u8; 3] = [0xEF, 0xBF, 0xBD];

/// What is kept of the last packet of a source.
#[derive(Clone, Copy, Debug)]
pub(crate) struct LastPacket {
    timestamp: u32,
    /// How many numbers were missing up to it.
    missing: u64,
}

/// A source that is listened to.
#[derive(Debug, Drop)]
struct ListedSource {
    source: u32,
    seen: Option<LastPacket>,
}

/// Hears the listed sources of one stream. It takes the used packets in rising number, and keeps a timestamp and a
/// count per source, and no packet.
#[derive(Debug, Drop)]
pub struct Receiver {
    listed: Vec<ListedSource>,
    /// The number of the last packet.
    latest: Option<u64>,
    /// How many numbers between the first packet and the last have no packet.
    missing: u64,
}

/// Whether a block with this timestamp is new after what was seen.
pub(crate) fn is_new(seen: Option<LastPacket>, timestamp: u32) -> bool
    ensures { result ≡ is_new_since seen timestamp }
{
    match seen {
        Some(seen) => after(timestamp, seen.timestamp),
        None => true,
    }
}

/// The offset of the oldest of these redundant blocks, where there is one.
fn offset_of(older: &[TextBlock]) -> u16
    ensures { result ≡ oldest_offset older.now }
{
    older.first().map_or(0, |block| block.offset)
}

/// How many numbers were missing up to the last packet of the source.
fn missing_before(seen: Option<LastPacket>) -> u64
    ensures { result ≡ missing_then seen }
{
    match seen {
        Some(seen) => seen.missing,
        None => 0,
    }
}

/// Whether more numbers are missing than the packet repeats, and its oldest block is new.
fn is_marked(seen: Option<LastPacket>, missing: u64, timestamp: u32, older: &[TextBlock]) -> bool
    ensures { result ≡ is_marked_since seen missing timestamp older.now }
{
    let before = seen.map_or(0, |seen| seen.missing);
    missing.saturating_sub(before) > older.len() as u64
        && is_new(seen, timestamp.wrapping_sub(u32::from(offset_of(older))))
}

/// The place of the source among these.
fn place_of(listed: &[ListedSource], source: u32) -> Option<usize>
    ensures { result ≡ position (λ l. l.source == source) listed.now }
{
    listed.iter().position(|l| l.source == source)
}

/// Whether a marker stands before what the packet gives.
fn puts_marker(seen: Option<LastPacket>, missing: u64, packet: &TextPacket) -> bool
    ensures { result ≡ is_marked_since seen missing packet.now.timestamp packet.now.older }
{
    is_marked(seen, missing, packet.timestamp, packet.older.as_slice())
}

/// Appends a text that a packet repeats. Few packets give one, so it is kept out of the way of the others.
#[inline(never)]
fn append_repeated(text: &Text, out: &mut Bytes) -> Result<(), NoMemory>
    ensures { OnOk result (out.new ≡ out.old ++ text.now) }
{
    out.append(text.as_slice())
}

/// Appends the text of a redundant block, where it is new.
fn append_new(
    seen: Option<LastPacket>,
    timestamp: u32,
    block: &TextBlock,
    out: &mut Bytes,
) -> Result<(), NoMemory>
    ensures { OnOk result (out.new ≡ out.old ++ concat (new_since seen timestamp block.now)) }
{
    if is_new(seen, timestamp.wrapping_sub(u32::from(block.offset))) {
        append_repeated(&block.text, out)?;
    }
    Ok(())
}

/// Appends the new texts of redundant blocks.
fn append_older(
    seen: Option<LastPacket>,
    timestamp: u32,
    older: &[TextBlock],
    out: &mut Bytes,
) -> Result<(), NoMemory>
    ensures { OnOk result (out.new ≡ out.old ++ concat (older_since seen timestamp older.now)) }
{
    for block in older {
        append_new(seen, timestamp, block, out)?;
    }
    Ok(())
}

/// Appends a marker, and counts it.
#[inline(never)]
fn append_marker(heard: &mut SourceText) -> Result<(), NoMemory>
    requires { heard.old.markers + 1 < 2 ^ 64 }
    ensures text { OnOk result (heard.new.text ≡ heard.old.text ++ marker) }
    ensures markers { OnOk result (heard.new.markers ≡ heard.old.markers + 1) }
{
    heard.markers += 1;
    heard.text.append(&MARKER)
}

/// Puts a marker, where one stands before the texts.
fn put_marker(marked: bool, heard: &mut SourceText) -> Result<(), NoMemory>
    requires { heard.old.markers + 1 < 2 ^ 64 }
    ensures text { OnOk result (heard.new.text ≡ heard.old.text ++ concat (if marked then marker ∷ [] else [])) }
    ensures markers { OnOk result (heard.new.markers ≡ heard.old.markers + one_if marked) }
{
    if marked {
        append_marker(heard)?;
    }
    Ok(())
}

/// Adds what the packet gives after what was seen of its source.
fn tell_more(
    seen: Option<LastPacket>,
    missing: u64,
    packet: &TextPacket,
    heard: &mut SourceText,
) -> Result<(), NoMemory>
    requires { heard.old.markers + 1 < 2 ^ 64 }
    ensures text { OnOk result (heard.new.text ≡ heard.old.text ++ concat (told_since seen missing packet.now)) }
    ensures markers { OnOk result (heard.new.markers ≡ heard.old.markers + one_if (is_marked_since seen missing packet.now.timestamp packet.now.older)) }
{
    let older = packet.older.as_slice();
    put_marker(is_marked(seen, missing, packet.timestamp, older), heard)?;
    append_older(seen, packet.timestamp, older, &mut heard.text)?;
    heard.text.append(packet.primary.as_slice())
}

/// Whether the redundant block of this header gives a text: it is new, and has one.
fn gives_text(seen: Option<LastPacket>, timestamp: u32, header: RedHeader) -> bool
    ensures { result ≡ gives_since seen timestamp header }
{
    is_new(seen, timestamp.wrapping_sub(u32::from(header.offset))) && header.size > 0
}

/// Whether a text that the packet repeats is new.
#[inline(always)]
fn repeats_new(seen: Option<LastPacket>, view: &TextView<'_>) -> bool
    requires { IsView view.now }
    ensures { result ≡ any_gives_since seen view.now.timestamp (headers_in view.now) }
{
    let mut place = 0;
    while place < view.count {
        let header = view.header(place);
        if gives_text(seen, view.timestamp, header) {
            return true;
        }
        place += 1;
    }
    false
}

/// Whether nothing but the primary text is heard of the packet: no more numbers are missing than it repeats, and no
/// text that it repeats is new.
#[inline(always)]
fn is_plain(seen: Option<LastPacket>, missing: u64, view: &TextView<'_>) -> bool
    requires { IsView view.now }
    ensures { IsTrue result → IsPlain seen missing view.now }
{
    let before = missing_before(seen);
    if missing.saturating_sub(before) > view.count as u64 {
        return false;
    }
    !repeats_new(seen, view)
}

impl Receiver {
    /// A receiver that listens to these sources: 1 to 64 of them, all different.
    pub fn new(alloc: Global, sources: &[u32]) -> Result<Receiver, NoMemory>
        requires some { 0 < length sources.now }
        requires few { length sources.now ≤ MOST_SOURCES }
        requires differ { AllPairs (λ a b. a ≢ b) sources.now }
        ensures stands { IfOk result (λ receiver. Stands receiver sources.now []) }
        ensures latest { IfOk result (λ receiver. latest_number receiver ≡ None) }
        ensures count { IfOk result (λ receiver. sources_count receiver ≡ length sources.now) }
    {
        let mut listed = Vec::with_capacity(alloc, sources.len())?;
        for source in sources {
            listed.push(ListedSource {
                source: *source,
                seen: None,
            })?;
        }
        Ok(Receiver {
            listed,
            latest: None,
            missing: 0,
        })
    }

    /// Begins anew with another source, of which no packet came yet. It takes no memory.
    pub fn restart(&mut self, source: u32)
        requires { sources_count self.old ≡ 1 }
        ensures stands { Stands self.new (source ∷ []) [] }
        ensures latest { latest_number self.new ≡ None }
        ensures count { sources_count self.new ≡ 1 }
    {
        self.listed[0] = ListedSource { source, seen: None };
        self.latest = None;
        self.missing = 0;
    }

    /// How many numbers are missing up to this one.
    fn missing_with(&self, number: u64) -> u64
        requires { ForSome self.now.latest (λ latest. latest < number) }
        ensures { missing_up_to self.now number ≤ 18446744073709551615 → result ≡ missing_up_to self.now number }
    {
        match self.latest {
            Some(latest) => self.missing.wrapping_add(number - latest - 1),
            None => self.missing,
        }
    }

    /// Counts a packet, and the numbers that are missing before it.
    fn count(&mut self, number: u64)
        requires { ForSome self.old.latest (λ latest. latest < number) }
        ensures listed { self.new.listed ≡ self.old.listed }
        ensures latest { self.new.latest ≡ Some number }
        ensures missing { missing_up_to self.old number ≤ 18446744073709551615 → self.new.missing ≡ missing_up_to self.old number }
    {
        self.missing = self.missing_with(number);
        self.latest = Some(number);
    }

    /// Counts a packet, and keeps it as the last one of the source at this place.
    fn keep(&mut self, place: usize, number: u64, timestamp: u32)
        requires rises { ForSome self.old.latest (λ latest. latest < number) }
        requires within { place < length self.old.listed.items }
        ensures { IsKept self.old self.new number timestamp place }
    {
        self.count(number);
        let missing = self.missing;
        self.listed[place].seen = Some(LastPacket { timestamp, missing });
    }

    /// The place of the packet's source, if it is listed and nothing but its primary text is heard of the packet.
    #[inline(always)]
    fn plain_place(&self, number: u64, view: &TextView<'_>) -> Option<usize>
        requires rises { ForSome self.now.latest (λ latest. latest < number) }
        requires view { IsView view.now }
        ensures { IfSome result (IsPlainAt self.now number view.now) }
    {
        let Some(place) = place_of(self.listed.as_slice(), view.source) else {
            return None;
        };
        if !is_plain(self.listed[place].seen, self.missing_with(number), view) {
            return None;
        }
        Some(place)
    }

    /// Takes a used packet, whose number is above that of the one before, and adds what is heard of it to what was heard
    /// of its source. There is one text for each source. After `NoMemory` a part may stand there.
    pub fn take_each(
        &mut self,
        number: u64,
        packet: &TextPacket,
        heard: &mut [SourceText],
    ) -> Result<(), NoMemory>
        requires rises { ForSome (latest_number self.old) (λ latest. latest < number) }
        requires each { length heard.old ≡ sources_count self.old }
        requires few { All (λ t. t.markers + 1 < 2 ^ 64) heard.old }
        ensures latest { OnOk result (latest_number self.new ≡ Some number) }
        ensures count { sources_count self.new ≡ sources_count self.old }
        ensures stands { OnOk result ((sources : List ℕ) (us : List Numbered) (time : ℕ) → Stands self.old sources us
            → Stands self.new sources (us ++ used_packet time number packet.now ∷ [])) }
        ensures heard { OnOk result ((sources : List ℕ) (us : List Numbered) (time : ℕ) → Stands self.old sources us
            → AreHeard sources us heard.old
            → AreHeard sources (us ++ used_packet time number packet.now ∷ []) heard.new) }
    {
        self.count(number);
        let Some(place) = place_of(self.listed.as_slice(), packet.source) else {
            return Ok(());
        };
        let told = &mut heard[place];
        tell_more(self.listed[place].seen, self.missing, packet, told)?;
        let (timestamp, missing) = (packet.timestamp, self.missing);
        let kept = Some(LastPacket { timestamp, missing });
        self.listed[place].seen = kept;
        Ok(())
    }

    /// Takes a used packet, as `take_each` does, and tells what is to be heard of it. It is for a receiver of one source.
    pub fn take_piece(&mut self, number: u64, packet: &TextPacket) -> TextCursor
        requires { ForSome (latest_number self.old) (λ latest. latest < number) }
        ensures latest { latest_number self.new ≡ Some number }
        ensures stands { (sources : List ℕ) (us : List Numbered) (time : ℕ) → Stands self.old sources us
            → Stands self.new sources (us ++ used_packet time number packet.now ∷ []) }
        ensures heard { (source : ℕ) (us : List Numbered) (time : ℕ) → Stands self.old (source ∷ []) us
            → heard_by (us ++ used_packet time number packet.now ∷ []) source
            ≡ heard_by us source ++ left_of result packet.now }
        ensures each { LeavesAdded self.old number packet.now result }
    {
        self.count(number);
        let Some(place) = place_of(self.listed.as_slice(), packet.source) else {
            return TextCursor::none();
        };
        let seen = self.listed[place].seen;
        let marker = puts_marker(seen, self.missing, packet);
        let (timestamp, missing) = (packet.timestamp, self.missing);
        let kept = Some(LastPacket { timestamp, missing });
        self.listed[place].seen = kept;
        let rest = packet.older.len() + 1;
        TextCursor { seen, marker, rest }
    }

    /// Takes a used packet where it lies, as `take_each` does, if nothing but its primary text is heard of it: its
    /// source is listed, no marker stands before it, and no text that it repeats is new. Else it answers false, and
    /// changes nothing. After `NoMemory` a part may stand there.
    #[inline(always)]
    pub fn take_plain(
        &mut self,
        number: u64,
        view: &TextView<'_>,
        heard: &mut [SourceText],
    ) -> Result<bool, NoMemory>
        requires rises { ForSome (latest_number self.old) (λ latest. latest < number) }
        requires each { length heard.old ≡ sources_count self.old }
        requires view { IsView view.now }
        ensures latest { IfOk result (λ taken. IsTrue taken → latest_number self.new ≡ Some number) }
        ensures count { sources_count self.new ≡ sources_count self.old }
        ensures stands { IfOk result (λ taken. IsTrue taken → TakesView self.old self.new number view.now) }
        ensures heard { IfOk result (λ taken. IsTrue taken → HearsView self.old number view.now heard.old heard.new) }
        ensures left { IfOk result (λ taken. taken ≡ Bool.false → self.new ≡ self.old) }
        ensures untold { IfOk result (λ taken. taken ≡ Bool.false → heard.new ≡ heard.old) }
    {
        let Some(place) = self.plain_place(number, view) else {
            return Ok(false);
        };
        heard[place].text.append(view.primary)?;
        self.keep(place, number, view.timestamp);
        Ok(true)
    }

    /// Takes a used packet where it lies, as `take_piece` does, if nothing but its primary text is heard of it. Else it
    /// answers false, and changes nothing. It is for a receiver of one source.
    #[inline(always)]
    pub fn take_plain_piece(&mut self, number: u64, view: &TextView<'_>) -> bool
        requires rises { ForSome (latest_number self.old) (λ latest. latest < number) }
        requires view { IsView view.now }
        ensures latest { IsTrue result → latest_number self.new ≡ Some number }
        ensures count { sources_count self.new ≡ sources_count self.old }
        ensures stands { IsTrue result → TakesView self.old self.new number view.now }
        ensures heard { IsTrue result → HearsPrimary self.old number view.now }
        ensures left { result ≡ Bool.false → self.new ≡ self.old }
    {
        let Some(only) = self.plain_place(number, view) else {
            return false;
        };
        self.keep(only, number, view.timestamp);
        true
    }
}
