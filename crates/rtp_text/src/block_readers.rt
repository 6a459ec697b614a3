//! Reading the blocks of a payload.
ghost use Rattle.std.specs.Prelude.{◌≡◌, ◌+◌, ◌*◌, ◌^◌, ◌≤◌, ◌<◌, [], ◌∷◌, ◌++◌, false, ◌↔◌, List, length, map, IfOk, IfSome, OnErr, IsTrue, IsUtf8, All, Ok, None};
ghost use Rattle.std.specs.Str.{is_utf8, IsAscii};
ghost use Rattle.wire_spec.specs.Steps.{Gives};
ghost use Rattle.rtt_base.specs.declared.blocks.TextBlock.{TextBlock};
ghost use Rattle.wire_spec.specs.Packets.{primary};
ghost use Rattle.wire_spec.specs.Red.{header_of, header_at, headers_at, older_size, blocks_at, checked, texts_within, red_within};
ghost use Rattle.rtt_base.specs.declared.limits.TheConstants.{MOST_PRIMARY_OCTETS};
ghost use Rattle.rtp_text.specs.Reading.{IsSmall, headers_of, headers_view, after_blocks, after_block};

use rtt_base::{Blocks, PayloadTypes, PrimaryText};
use wire_spec::{RedFault, RedHeader};

/// F, the bit of a header's first octet that tells a redundant header from the last.
const F: u8 = 128;

/// How many redundant blocks a packet has at most.
const MAX_OLDER: usize = 8;

/// How many octets a redundant header has.
const HEADER: usize = 4;

/// The header of a redundant block, whose four octets are there: F and the type in 8 bits, the offset in 14, the size
/// in 10 (RFC 2198, section 3).
pub(crate) fn redundant_header(octets: &[u8]) -> RedHeader
    requires { 4 ≤ length octets.now }
    ensures value { result ≡ header_of octets.now }
    ensures small { result.size < 2 ^ 10 }
{
    let bits = u32::from_be_bytes([octets[0], octets[1], octets[2], octets[3]]);
    RedHeader {
        offset: (bits / 1024 % 16384) as u16,
        size: (bits % 1024) as u16,
    }
}

/// The header in front, or `None` where it is the last. `full`: no more redundant ones may come.
fn front_header(octets: &[u8], t140: u8, full: bool) -> Result<Option<RedHeader>, RedFault>
    ensures exact { result ≡ header_at full t140 octets.now }
    ensures room { IfOk result (λ header. IfSome header (λ _. full ≡ false)) }
    ensures octets { IfOk result (λ header. IfSome header (λ _. 4 ≤ length octets.now)) }
    ensures small { IfOk result (λ header. IfSome header IsSmall) }
    ensures header { IfOk result (λ header. IfSome header (λ h. h ≡ header_of octets.now)) }
    ensures last { result ≡ Ok None → 1 ≤ length octets.now }
{
    if octets.is_empty() {
        return Err(RedFault::Cut);
    }
    let first = octets[0];
    if first < F {
        return if first == t140 {
            Ok(None)
        } else {
            Err(RedFault::WrongType)
        };
    }
    if octets.len() < HEADER {
        return Err(RedFault::Cut);
    }
    if full {
        return Err(RedFault::Many);
    }
    if first - F != t140 {
        return Err(RedFault::WrongType);
    }
    Ok(Some(redundant_header(octets)))
}

/// How many redundant headers stand in front, how many octets their texts have, and the octets behind the last header.
#[inline(always)]
pub(crate) fn scan_headers(octets: &[u8], t140: u8) -> Result<(usize, usize, &[u8]), RedFault>
    ensures exact { Gives (headers_view octets.now) result (headers_at 8 t140 octets.now) }
    ensures few { IfOk result (λ read. read.0 ≤ 8) }
    ensures there { IfOk result (λ read. 4 * read.0 ≤ length octets.now) }
    ensures older { IfOk result (λ read. read.1 ≡ older_size (headers_of read.0 octets.now)) }
{
    let mut count = 0;
    let mut older = 0;
    let mut rest = octets;
    while let Some(header) = front_header(rest, t140, count == MAX_OLDER)? {
        count += 1;
        older += usize::from(header.size);
        rest = &rest[HEADER..];
    }
    Ok((count, older, &rest[1..]))
}

/// Whether a text of any octets is UTF-8. The texts of most packets are ASCII, so this stands out of their way.
#[inline(never)]
fn is_text(text: &[u8]) -> bool
    ensures { IsTrue result ↔ IsUtf8 text.now }
{
    simdutf8::is_utf8(text)
}

/// Whether a text is UTF-8. `plain`: it is known to be ASCII.
#[inline(always)]
fn passes(text: &[u8], plain: bool) -> bool
    requires { IsTrue plain → IsAscii text.now }
    ensures { IsTrue result ↔ IsUtf8 text.now }
{
    plain || is_text(text)
}

/// Appends a block, where its text is UTF-8. `plain`: it is known to be ASCII.
#[inline(always)]
fn append_block(offset: u16, text: &[u8], plain: bool, out: &mut Blocks) -> Result<(), RedFault>
    requires room { length out.old < 9 }
    requires fits { length text.now < 1024 }
    requires plain { IsTrue plain → IsAscii text.now }
    ensures { Gives (λ _. out.new) result (after_block out.old offset text.now) }
{
    if !passes(text, plain) {
        return Err(RedFault::NotText);
    }
    out.push_copy(offset, text);
    Ok(())
}

/// Puts the primary text in place of what was there, where it is UTF-8. `plain`: it is known to be ASCII.
#[inline(always)]
fn put_primary(text: &[u8], plain: bool, out: &mut PrimaryText) -> Result<(), RedFault>
    requires fits { length text.now ≤ MOST_PRIMARY_OCTETS }
    requires plain { IsTrue plain → IsAscii text.now }
    ensures { (front : List TextBlock) → Gives (λ _. front ++ primary out.new ∷ []) result (after_block front 0 text.now) }
{
    if !passes(text, plain) {
        return Err(RedFault::NotText);
    }
    out.clear();
    let _ = out.append(text);
    Ok(())
}

/// Appends the redundant blocks of so many headers, and puts what is left in place of the primary text. One test tells
/// whether all texts are ASCII.
#[inline(always)]
fn append_blocks(
    count: usize,
    headers: &[u8],
    texts: &[u8],
    out: &mut Blocks,
    text: &mut PrimaryText,
) -> Result<(), RedFault>
    requires room { length out.old + count < 9 }
    requires headers { 4 * count ≤ length headers.now }
    requires there { older_size (headers_of count headers.now) ≤ length texts.now }
    requires fits { length texts.now ≤ older_size (headers_of count headers.now) + MOST_PRIMARY_OCTETS }
    ensures { Gives (λ _. out.new ++ primary text.new ∷ []) result (after_blocks out.old (checked (blocks_at (headers_of count headers.now) texts.now))) }
{
    let plain = texts.is_ascii();
    let mut ahead = headers;
    let mut rest = texts;
    let mut left = count;
    while left > 0 {
        let header = redundant_header(ahead);
        let (block, after) = rest.split_at(usize::from(header.size));
        append_block(header.offset, block, plain, out)?;
        ahead = &ahead[HEADER..];
        rest = after;
        left -= 1;
    }
    put_primary(rest, plain, text)
}

/// Reads the texts behind so many headers, whose texts have `older` octets. There is no block before. The primary text has
/// at most `most` octets.
#[inline(always)]
fn read_texts(
    most: usize,
    count: usize,
    headers: &[u8],
    older: usize,
    texts: &[u8],
    out: &mut Blocks,
    text: &mut PrimaryText,
) -> Result<(), RedFault>
    requires most { most ≤ MOST_PRIMARY_OCTETS }
    requires none { out.old ≡ [] }
    requires few { count ≤ 8 }
    requires headers { 4 * count ≤ length headers.now }
    requires older { older ≡ older_size (headers_of count headers.now) }
    ensures { Gives (λ _. out.new ++ primary text.new ∷ []) result (texts_within most (headers_of count headers.now) texts.now) }
{
    if texts.len() < older {
        return Err(RedFault::Cut);
    }
    if texts.len() - older > most {
        return Err(RedFault::Long);
    }
    append_blocks(count, headers, texts, out, text)
}

/// Reads the blocks behind those that were there.
#[tactic(auto, unfolding(wire_spec::specs::Red::red_within))]
fn read_into(
    most: usize,
    payload: &[u8],
    pt: u8,
    payload_types: PayloadTypes,
    out: &mut Blocks,
    text: &mut PrimaryText,
) -> Result<(), RedFault>
    requires most { most ≤ MOST_PRIMARY_OCTETS }
    requires none { out.old ≡ [] }
    ensures { Gives (λ _. out.new ++ primary text.new ∷ []) result (red_within most payload.now pt payload_types) }
{
    if pt == payload_types.t140 {
        return read_texts(most, 0, &[], 0, payload, out, text);
    }
    if pt != payload_types.red {
        return Err(RedFault::WrongType);
    }
    let (count, older, texts) = scan_headers(payload, payload_types.t140)?;
    read_texts(most, count, payload, older, texts, out, text)
}

/// Reads the redundant blocks and the primary text of a payload of type `pt` in place of those that were there, with the first
/// test that fails. The primary text has at most `most` octets. After a refusal there are none. It takes no memory.
pub fn read_blocks(
    most: usize,
    payload: &[u8],
    pt: u8,
    payload_types: PayloadTypes,
    out: &mut Blocks,
    text: &mut PrimaryText,
) -> Result<(), RedFault>
    requires { most ≤ MOST_PRIMARY_OCTETS }
    ensures exact { Gives (λ _. out.new ++ primary text.new ∷ []) result
        (red_within most payload.now pt payload_types) }
    ensures older { OnErr result (out.new ≡ []) }
    ensures text { OnErr result (text.new ≡ []) }
{
    out.clear();
    let read = read_into(most, payload, pt, payload_types, out, text);
    if read.is_err() {
        out.clear();
        text.clear();
    }
    read
}
