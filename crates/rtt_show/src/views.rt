//! What is shown of all that was found in a recording.
ghost use Rattle.std.specs.Prelude.{◌≡◌, ℕ, ◌<◌, ◌^◌, ◌++◌, List, length, All, IfOk, IfSome, OnOk};
ghost use Rattle.wire_spec.specs.Dump.{Item};
ghost use Rattle.command_spec.specs.Streams.{ssrc_of, type_of};
ghost use Rattle.command_spec.specs.Showing.{end_line};
ghost use Rattle.report_spec.specs.Showing.{start_line};
ghost use Rattle.rtpdump_io.specs.InMemory.{HasRecords};
ghost use Rattle.rtt_show.specs.Finds.{IsFound, IsSmall};
ghost use Rattle.rtt_show.specs.Whole.{AreShown, IsGroupOf, IsGroupShown, IsShownOf, ends, others_text, shape_limit};

use crate::append_began;
use crate::findings::Findings;
use crate::groups::{Group, Groups};
use crate::pairs::show_pair;
use crate::print_lines::{append_number, append_number_line};
use crate::streams::show_stream;
use command_spec::dump_kind_name;
use rtpdump_io::DumpFault;
use rtt_base::{Bytes, NoMemory, PayloadTypes};
use std::alloc::Global;

/// What groups of packets are: streams of text with these payload types, or pairs.
#[derive(Clone, Copy)]
pub(crate) enum Shape {
    Stream(PayloadTypes),
    Pair,
}

/// The SSRC of a pair.
fn ssrc_in(pair: u64) -> u32
    requires { pair < 2 ^ 39 }
    ensures { result ≡ ssrc_of pair }
{
    (pair / 128) as u32
}

/// The payload type of a pair.
fn type_in(pair: u64) -> u8
    ensures { result ≡ type_of pair }
{
    (pair % 128) as u8
}

/// Appends what is shown of one group.
fn show_group(alloc: Global, shape: Shape, group: &Group, out: &mut Bytes) -> Result<(), NoMemory>
    requires records { HasRecords group.now.records }
    requires name { group.now.name < shape_limit shape }
    ensures { OnOk result (IsGroupShown shape group.now out.old out.new) }
{
    let records = group.records.as_slice();
    match shape {
        Shape::Stream(payload_types) => show_stream(
            alloc,
            group.name as u32,
            payload_types,
            records,
            out,
        ),
        Shape::Pair => show_pair(ssrc_in(group.name), type_in(group.name), records, out),
    }
}

/// Appends what is shown of each group.
fn show_groups(
    alloc: Global,
    shape: Shape,
    groups: &[Group],
    out: &mut Bytes,
) -> Result<(), NoMemory>
    requires { All (IsGroupOf shape) groups.now }
    ensures { OnOk result (AreShown shape groups.now out.old out.new) }
{
    for index in 0..groups.len() {
        show_group(alloc, shape, &groups[index], out)?;
    }
    Ok(())
}

/// Appends how many records are no packets of a stream or a pair.
fn append_others(found: &Findings, out: &mut Bytes) -> Result<(), NoMemory>
    requires { (n : ℕ) × (n < 2 ^ 32) × IsSmall n found.now }
    ensures { OnOk result (out.new ≡ out.old ++ others_text found.now) }
{
    let more = found.streams.others + found.pairs.others;
    append_number_line(b"-- rtcp ", found.rtcp, out)?;
    append_number_line(b"-- cut ", found.cut, out)?;
    append_number_line(b"-- large ", found.large, out)?;
    append_number_line(b"-- no RTP ", found.no_rtp, out)?;
    append_number_line(b"-- more ", more, out)
}

/// Appends a line: that the recording is whole, or the fault behind which it can't be read.
#[tactic(auto, unfolding(command_spec::specs::Showing::end_line))]
pub fn append_end(end: Option<DumpFault>, out: &mut Bytes) -> Result<(), NoMemory>
    ensures { OnOk result (out.new ≡ out.old ++ end_line (ends end)) }
{
    match end {
        None => out.append(b"-- whole\n"),
        Some(fault) => {
            append_number(b"-- byte ", fault.offset, out)?;
            out.append(b": ")?;
            out.append(dump_kind_name(fault.kind))?;
            out.append(b"\n")
        }
    }
}

/// Appends when the recording began, in milliseconds since 1970, where it has a start that is not 0.
fn append_start(start: Option<u64>, out: &mut Bytes) -> Result<(), NoMemory>
    requires { IfSome start (λ start. start < 2 ^ 48) }
    ensures { OnOk result (out.new ≡ out.old ++ start_line start) }
{
    match start {
        None | Some(0) => Ok(()),
        Some(start) => append_began(start, out),
    }
}

/// All that is shown of a recording that began at `start`, with the fault that ends it.
pub(crate) fn show_found(
    alloc: Global,
    found: &Findings,
    start: Option<u64>,
    end: Option<DumpFault>,
) -> Result<Bytes, NoMemory>
    requires found { (items : List Item) × (length items < 2 ^ 32) × IsFound found.now items }
    requires small { (n : ℕ) × (n < 2 ^ 32) × IsSmall n found.now }
    requires start { IfSome start (λ start. start < 2 ^ 48) }
    ensures { IfOk result (IsShownOf found.now start end) }
{
    let mut out = Bytes::new(alloc);
    let shape = Shape::Stream(found.payload_types);
    show_groups(alloc, shape, found.streams.groups.as_slice(), &mut out)?;
    show_groups(alloc, Shape::Pair, found.pairs.groups.as_slice(), &mut out)?;
    append_others(found, &mut out)?;
    append_end(end, &mut out)?;
    append_start(start, &mut out)?;
    Ok(out)
}
