//! Recordings in which the packets of each stream come in a row: no number is lost or late.
ghost use Rattle.std.specs.Prelude.{◌≡◌, All, true, length, IfOk, IfSome};
ghost use Rattle.rtt_show.specs.Records.{OfRecords};
ghost use Rattle.rtt_show.specs.Rows.{IsRow};
ghost use Rattle.rtt_times.specs.Found.{IsFoundOf, IsStream, IsToldOf};
ghost use Rattle.rtt_times.specs.Rows.{AddsRow, AddsRows, AreRows};

use crate::lines::Lines;
use crate::texts::add_texts;
use command_spec::ReadRequest;
use rtt_base::{NoMemory, PayloadTypes};
use rtt_show::{Findings, Group, Row, row_of};
use std::alloc::Global;

/// The rows in which the packets of all these streams come, if those of each come in one.
fn rows_of(alloc: Global, streams: &[Group]) -> Result<Option<Vec<Row>>, NoMemory>
    requires { All IsStream streams.now }
    ensures { IfOk result (λ rows. IfSome rows (λ rows. AreRows streams.now rows.items)) }
{
    let mut rows = Vec::new(alloc);
    for index in 0..streams.len() {
        let Some(row) = row_of(streams[index].records.as_slice()) else {
            return Ok(None);
        };
        rows.push(row)?;
    }
    Ok(Some(rows))
}

/// Adds the lines of the texts of a stream whose packets come in this row, and tells whether each of them is one of text.
fn add_row(
    alloc: Global,
    payload_types: PayloadTypes,
    stream: &Group,
    row: Row,
    lines: &mut Lines,
) -> Result<bool, NoMemory>
    requires stream { IsStream stream.now }
    requires row { OfRecords stream.now.records (IsRow row) }
    ensures { IfOk result (λ whole. whole ≡ true → AddsRow payload_types stream.now lines.old lines.new) }
{
    let of = ReadRequest {
        ssrc: stream.name as u32,
        source: row.source,
        payload_types,
    };
    let arrivals = add_texts(alloc, of, stream.records.as_slice(), lines)?;
    Ok(arrivals == row.packets)
}

/// Adds the lines of the texts of all these streams, whose packets come in these rows, and tells whether each of them is one of
/// text.
fn add_rows(
    alloc: Global,
    payload_types: PayloadTypes,
    streams: &[Group],
    rows: &[Row],
    lines: &mut Lines,
) -> Result<bool, NoMemory>
    requires streams { All IsStream streams.now }
    requires rows { AreRows streams.now rows.now }
    ensures { IfOk result (λ whole. whole ≡ true → AddsRows payload_types streams.now lines.old lines.new) }
{
    for index in 0..streams.len() {
        if !add_row(alloc, payload_types, &streams[index], rows[index], lines)? {
            return Ok(false);
        }
    }
    Ok(true)
}

/// The lines of all streams, in the order of their moments, where the packets of each are seen to come in a row.
pub(crate) fn lines_in_rows(alloc: Global, found: &Findings) -> Result<Option<Lines>, NoMemory>
    requires { IsFoundOf found.now }
    ensures { IfOk result (λ lines. IfSome lines (λ lines. IsToldOf found.now lines 0)) }
{
    let streams = found.streams.groups.as_slice();
    let Some(rows) = rows_of(alloc, streams)? else {
        return Ok(None);
    };
    let mut lines = Lines::new(alloc);
    if !add_rows(
        alloc,
        found.payload_types,
        streams,
        rows.as_slice(),
        &mut lines,
    )? {
        return Ok(None);
    }
    lines.sort()?;
    Ok(Some(lines))
}
