//! Reading a packet.
ghost use Rattle.std.specs.Prelude.{◌≡◌, ◌*◌, ◌≤◌, length};
ghost use Rattle.wire_spec.specs.Steps.{Gives};
ghost use Rattle.wire_spec.specs.Rtp.{rtp, rtp_of_header, past, past_extension, unpadded, first_source};
ghost use Rattle.rtp_text.specs.Headers.{reading};

use crate::RtpView;
use wire_spec::RtpFault;

/// What follows `count` octets.
fn past_octets(octets: &[u8], count: usize) -> Result<&[u8], RtpFault>
    ensures { Gives (λ rest. rest.now) result (past count octets.now) }
{
    octets.get(count..).ok_or(RtpFault::Short)
}

/// What follows the extension, where there is one.
fn past_extension_words(octets: &[u8], extended: bool) -> Result<&[u8], RtpFault>
    ensures { Gives (λ rest. rest.now) result (past_extension extended octets.now) }
{
    if !extended {
        return Ok(octets);
    }
    let words = past_octets(octets, 4)?;
    let count = u16::from_be_bytes([octets[2], octets[3]]);
    past_octets(words, 4 * usize::from(count))
}

/// What stands before the padding, where there is some.
fn before_padding_octets(octets: &[u8], padded: bool) -> Result<&[u8], RtpFault>
    ensures { Gives (λ payload. payload.now) result (unpadded padded octets.now) }
{
    if !padded {
        return Ok(octets);
    }
    let count = octets.last().map_or(0, |&last| usize::from(last));
    if count < 1 || octets.len() < count {
        return Err(RtpFault::Padding);
    }
    Ok(&octets[..octets.len() - count])
}

/// The first of `cc` CSRCs, which are there.
fn first_csrc(octets: &[u8], cc: u8) -> Option<u32>
    requires { 4 * cc ≤ length octets.now }
    ensures { result ≡ first_source cc octets.now }
{
    if cc == 0 {
        return None;
    }
    Some(u32::from_be_bytes([octets[0], octets[1], octets[2], octets[3]]))
}

/// Reads a packet, with the first test that fails. It takes no memory.
#[tactic(auto, unfolding(wire_spec::specs::Rtp::rtp))]
pub fn read_rtp(bytes: &[u8]) -> Result<RtpView<'_>, RtpFault>
    ensures { Gives reading result (rtp bytes.now) }
{
    if bytes.len() < 12 {
        return Err(RtpFault::Short);
    }
    if bytes[0] >> 6 != 2 {
        return Err(RtpFault::Version);
    }
    read_version_two(bytes)
}

/// Reads a packet of at least twelve octets whose version is 2.
#[tactic(auto, unfolding(wire_spec::specs::Rtp::rtp_of_header))]
fn read_version_two(bytes: &[u8]) -> Result<RtpView<'_>, RtpFault>
    requires { 12 ≤ length bytes.now }
    ensures { Gives reading result (rtp_of_header bytes.now) }
{
    let (first, second) = (bytes[0], bytes[1]);
    let cc = first % 16;
    let sources = &bytes[12..];
    let after_sources = past_octets(sources, 4 * usize::from(cc))?;
    let after_extension = past_extension_words(after_sources, first / 16 % 2 == 1)?;
    let payload = before_padding_octets(after_extension, first / 32 % 2 == 1)?;
    Ok(RtpView {
        marker_bit: second >= 128,
        pt: second % 128,
        seq: u16::from_be_bytes([bytes[2], bytes[3]]),
        timestamp: u32::from_be_bytes([bytes[4], bytes[5], bytes[6], bytes[7]]),
        ssrc: u32::from_be_bytes([bytes[8], bytes[9], bytes[10], bytes[11]]),
        cc,
        csrc: first_csrc(sources, cc),
        payload,
    })
}
