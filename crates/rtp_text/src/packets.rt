//! Reading a whole packet of text.
ghost use Rattle.std.specs.Prelude.{◌≡◌, ◌≤◌, [], length, OnErr};
ghost use Rattle.wire_spec.specs.Steps.{Gives};
ghost use Rattle.wire_spec.specs.Packets.{packet_of};
ghost use Rattle.wire_spec.specs.Text.{accepted, text_of, text_within, short_within};
ghost use Rattle.rtp_text.specs.Headers.{reading};
ghost use Rattle.rtt_base.specs.declared.limits.TheConstants.{MOST_PRIMARY_OCTETS};

use crate::{RtpView, read_blocks, read_rtp};
use rtt_base::limits::{MOST_PACKET_OCTETS, MOST_TEXT_OCTETS};
use rtt_base::{PayloadTypes, TextPacket};
use wire_spec::TextFault;

/// A packet of the stream that is asked for, with one source.
pub(crate) fn accept(view: RtpView<'_>, asked: Option<u32>) -> Result<RtpView<'_>, TextFault>
    ensures { Gives reading result (accepted asked (reading view.entry)) }
{
    if let Some(ssrc) = asked {
        if view.ssrc != ssrc {
            return Err(TextFault::Foreign);
        }
    }
    if view.cc > 1 {
        return Err(TextFault::Sources);
    }
    Ok(view)
}

/// Reads a packet of at most 4224 octets, over blocks that may be there.
fn read_short(
    most: usize,
    bytes: &[u8],
    ssrc: Option<u32>,
    payload_types: PayloadTypes,
    out: &mut TextPacket,
) -> Result<(), TextFault>
    requires most { most ≤ MOST_PRIMARY_OCTETS }
    requires older { out.old.older ≡ [] }
    requires text { out.old.primary ≡ [] }
    ensures exact { Gives (λ _. packet_of out.new) result (short_within most bytes.now ssrc payload_types) }
    ensures err { OnErr result (out.new ≡ record out.old { older = []; primary = [] }) }
{
    let view = accept(read_rtp(bytes)?, ssrc)?;
    read_blocks(
        most,
        view.payload,
        view.pt,
        payload_types,
        &mut out.older,
        &mut out.primary,
    )?;
    out.marker_bit = view.marker_bit;
    out.seq = view.seq;
    out.timestamp = view.timestamp;
    out.ssrc = view.ssrc;
    out.source = view.csrc.unwrap_or(view.ssrc);
    Ok(())
}

/// Reads a packet of text in place of what was in `out`, with the first test that fails: of the stream `ssrc`, where
/// one is named. Its primary text has at most `most` octets. After a refusal `out` has no texts. It takes no memory.
#[tactic(auto, unfolding(wire_spec::specs::Text::text_within))]
pub fn read_text_within(
    most: usize,
    bytes: &[u8],
    ssrc: Option<u32>,
    payload_types: PayloadTypes,
    out: &mut TextPacket,
) -> Result<(), TextFault>
    requires { most ≤ MOST_PRIMARY_OCTETS }
    ensures exact { Gives (λ _. packet_of out.new) result (text_within most bytes.now ssrc payload_types) }
    ensures err { OnErr result (out.new ≡ record out.old { older = []; primary = [] }) }
{
    out.older.clear();
    out.primary.clear();
    if bytes.len() > MOST_PACKET_OCTETS {
        return Err(TextFault::Long);
    }
    read_short(most, bytes, ssrc, payload_types, out)
}

/// Reads a packet of text whose primary text is no longer than that of any block.
pub fn read_text(
    bytes: &[u8],
    ssrc: Option<u32>,
    payload_types: PayloadTypes,
    out: &mut TextPacket,
) -> Result<(), TextFault>
    ensures exact { Gives (λ _. packet_of out.new) result (text_of bytes.now ssrc payload_types) }
    ensures err { OnErr result (out.new ≡ record out.old { older = []; primary = [] }) }
{
    read_text_within(MOST_TEXT_OCTETS, bytes, ssrc, payload_types, out)
}
