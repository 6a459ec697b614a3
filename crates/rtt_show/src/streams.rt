//! What is shown of a stream of text.
ghost use Rattle.std.specs.Prelude.{◌≡◌, ◌≢◌, ◌++◌, ◌≤◌, true, false, length, map, flat_map, decimal, AllPairs, IsUtf8, IfOk, OnOk};
ghost use Rattle.command_spec.specs.Showing.{refusal_line};
ghost use Rattle.report_spec.specs.Showing.{stream_view};
ghost use Rattle.view_spec.specs.Views.{source_view};
ghost use Rattle.terminal.specs.Terminals.{texts_of, AreUtf8};
ghost use Rattle.terminal.specs.Views.{named, source_shown};
ghost use Rattle.rtt_base.specs.declared.limits.TheConstants.{MOST_SOURCES};
ghost use Rattle.rtt_show.specs.Hearing.{HasHeard};
ghost use Rattle.rtpdump_io.specs.InMemory.{HasRecords};
ghost use Rattle.rtt_show.specs.Records.{OfRecords};
ghost use Rattle.rtt_show.specs.Rows.{IsRow};
ghost use Rattle.rtt_show.specs.Surveys.{IsSurvey};
ghost use Rattle.rtt_show.specs.Shown.{asked, settings_of, heard_text, refusal_lines};

use crate::first_sources::FirstSources;
use crate::hearing_passes::hear_all;
use crate::losses::missed_of;
use crate::print_lines::{append_number_line, append_title};
use crate::record_kinds::place_among;
use crate::rows::{Row, row_of};
use crate::surveys::{Survey, survey_of};
use command_spec::fault_name;
use itoa::Buffer;
use rtt_base::limits::USUAL_WAIT;
use rtt_base::{Bytes, NoMemory, PayloadTypes};
use std::alloc::Global;
use t140_text::show;
use t140_text::views::{append_counts, append_source_view};
use terminal::{SourceText, Terminal, TerminalSettings};
use wire_spec::TextFault;

/// The refusals, in the order of their tests.
const REFUSALS: [TextFault; 9] = [
    TextFault::Short,
    TextFault::Version,
    TextFault::Padding,
    TextFault::Sources,
    TextFault::WrongType,
    TextFault::Cut,
    TextFault::Many,
    TextFault::Long,
    TextFault::NotText,
];

/// Who hears the stream.
fn settings_for(ssrc: u32, payload_types: PayloadTypes) -> TerminalSettings
    ensures { result ≡ settings_of payload_types ssrc }
{
    TerminalSettings {
        ssrc,
        payload_types,
        wait: u64::from(USUAL_WAIT),
    }
}

/// A terminal that heard the sources, or that of the SSRC where none was named.
fn hear_sources(
    alloc: Global,
    ssrc: u32,
    payload_types: PayloadTypes,
    sources: &FirstSources,
    records: &[u8],
) -> Result<Terminal, NoMemory>
    requires few { length sources.now.kept.items ≤ MOST_SOURCES }
    requires differ { AllPairs (λ a b. a ≢ b) sources.now.kept.items }
    requires records { HasRecords records.now }
    ensures { IfOk result (HasHeard (settings_of payload_types ssrc) (asked ssrc sources.now.kept.items) records.now) }
{
    let settings = settings_for(ssrc, payload_types);
    if sources.kept.is_empty() {
        return hear_all(alloc, settings, &[ssrc], records);
    }
    hear_all(alloc, settings, sources.kept.as_slice(), records)
}

/// Appends what one source shows.
fn append_source(
    alloc: Global,
    source: u32,
    text: &SourceText,
    out: &mut Bytes,
) -> Result<(), NoMemory>
    requires { IsUtf8 text.now.text }
    ensures { OnOk result (out.new ≡ out.old ++ source_view (source_shown (decimal source) text.now)) }
{
    let mut digits = Buffer::new();
    let shown = show(alloc, text.text.as_slice())?;
    append_source_view(digits.format(source).as_bytes(), &shown, out)
}

/// Appends what each source shows.
fn append_sources(
    alloc: Global,
    sources: &[u32],
    texts: &[SourceText],
    out: &mut Bytes,
) -> Result<(), NoMemory>
    requires each { length sources.now ≤ length texts.now }
    requires utf8 { AreUtf8 texts.now }
    ensures { OnOk result (out.new ≡ out.old ++ flat_map source_view (named (map decimal sources.now) texts.now)) }
{
    for index in 0..sources.len() {
        append_source(alloc, sources[index], &texts[index], out)?;
    }
    Ok(())
}

/// Appends how many packets were refused so, where some were.
fn append_refusal(fault: TextFault, number: u64, out: &mut Bytes) -> Result<(), NoMemory>
    ensures { OnOk result (out.new ≡ out.old ++ refusal_line fault number) }
{
    if number == 0 {
        return Ok(());
    }
    out.append(b"-- refused ")?;
    out.append(fault_name(fault))?;
    append_number_line(b" ", number, out)
}

/// Appends how many packets were refused by each of these.
fn append_refusals(
    faults: &[TextFault],
    refused: &[u64; 10],
    out: &mut Bytes,
) -> Result<(), NoMemory>
    ensures { OnOk result (out.new ≡ out.old ++ refusal_lines refused.now faults.now) }
{
    for fault in faults {
        append_refusal(*fault, refused[place_among(*fault)], out)?;
    }
    Ok(())
}

/// Appends what was heard, with its counts.
fn append_heard(
    alloc: Global,
    found: &Survey,
    terminal: &Terminal,
    out: &mut Bytes,
) -> Result<(), NoMemory>
    requires each { length found.now.sources.kept.items ≤ length (texts_of terminal.now) }
    requires utf8 { AreUtf8 (texts_of terminal.now) }
    ensures { OnOk result (out.new ≡ out.old ++ heard_text found.now terminal.now) }
{
    append_sources(alloc, found.sources.kept.as_slice(), terminal.heard(), out)?;
    append_counts(terminal.counts(), out)?;
    append_refusals(&REFUSALS, &found.refused, out)?;
    append_number_line(b"-- other sources ", found.sources.others, out)
}

/// Appends what is shown of a stream with these packets, of which this was found out, and which this terminal heard.
fn append_stream(
    alloc: Global,
    ssrc: u32,
    payload_types: PayloadTypes,
    records: &[u8],
    found: &Survey,
    terminal: &Terminal,
    out: &mut Bytes,
) -> Result<(), NoMemory>
    requires records { HasRecords records.now }
    requires found { OfRecords records.now (IsSurvey payload_types ssrc found.now) }
    requires heard { HasHeard (settings_of payload_types ssrc) (asked ssrc found.now.sources.kept.items) records.now
        terminal.now }
    ensures { OnOk result (OfRecords records.now (λ came. out.new ≡ out.old ++ stream_view payload_types ssrc came)) }
{
    let used = terminal.counts().used;
    let missed = missed_of(alloc, ssrc, payload_types, records, found.spread, used)?;
    append_title(ssrc, found.from, found.to, missed, out)?;
    append_heard(alloc, found, terminal, out)
}

/// Appends what is shown of a stream with these packets, which come in this row, and tells whether it was shown: where each
/// of them is used. Else nothing is appended.
fn show_row(
    alloc: Global,
    ssrc: u32,
    payload_types: PayloadTypes,
    records: &[u8],
    row: Row,
    out: &mut Bytes,
) -> Result<bool, NoMemory>
    requires records { HasRecords records.now }
    requires row { OfRecords records.now (IsRow row) }
    ensures shown { IfOk result (λ shown. shown ≡ true → OfRecords records.now (λ came. out.new ≡ out.old ++ stream_view payload_types ssrc came)) }
    ensures unchanged { IfOk result (λ shown. shown ≡ false → out.new ≡ out.old) }
{
    if row.packets == 0 {
        return Ok(false);
    }
    let settings = settings_for(ssrc, payload_types);
    let terminal = hear_all(alloc, settings, &[row.source], records)?;
    let used = terminal.counts().used;
    if used != row.packets {
        return Ok(false);
    }
    let found = Survey::of_row(alloc, row)?;
    append_stream(alloc, ssrc, payload_types, records, &found, &terminal, out)?;
    Ok(true)
}

/// Appends what is shown of a stream with these packets, and tells whether it was shown: where they are seen to come in a row,
/// and each of them is used. Else nothing is appended.
fn show_if_row(
    alloc: Global,
    ssrc: u32,
    payload_types: PayloadTypes,
    records: &[u8],
    out: &mut Bytes,
) -> Result<bool, NoMemory>
    requires { HasRecords records.now }
    ensures shown { IfOk result (λ shown. shown ≡ true → OfRecords records.now (λ came. out.new ≡ out.old ++ stream_view payload_types ssrc came)) }
    ensures unchanged { IfOk result (λ shown. shown ≡ false → out.new ≡ out.old) }
{
    match row_of(records) {
        Some(row) => show_row(alloc, ssrc, payload_types, records, row, out),
        None => Ok(false),
    }
}

/// Appends what is shown of a stream with these packets.
pub(crate) fn show_stream(
    alloc: Global,
    ssrc: u32,
    payload_types: PayloadTypes,
    records: &[u8],
    out: &mut Bytes,
) -> Result<(), NoMemory>
    requires { HasRecords records.now }
    ensures { OnOk result (OfRecords records.now (λ came. out.new ≡ out.old ++ stream_view payload_types ssrc came)) }
{
    if show_if_row(alloc, ssrc, payload_types, records, out)? {
        return Ok(());
    }
    let found = survey_of(alloc, records, ssrc, payload_types)?;
    let terminal = hear_sources(alloc, ssrc, payload_types, &found.sources, records)?;
    append_stream(alloc, ssrc, payload_types, records, &found, &terminal, out)
}
