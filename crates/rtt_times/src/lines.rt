//! Lines, and the order of their moments.
ghost use Rattle.std.specs.Prelude.{◌≡◌, ◌+◌, ◌<◌, ◌^◌, ◌++◌, ◌∷◌, [], take, drop, IsUtf8, OnOk, decimal};
ghost use Rattle.stream_spec.specs.Ready.{chunk_of};
ghost use Rattle.view_spec.specs.Views.{printed_line};
ghost use Rattle.report_spec.specs.Times.{LostRow, LateNumber, name_of, on_wire, told_text};
ghost use Rattle.rtt_times.specs.Lines.{AddsLines, AddsText, AreEarly, IsTimed, Keeps, KeepsFrom, LiesIn, Sorts, said_line, timed_line, written};

use itoa::Buffer;
use recording_views::append_escaped;
use rtt_base::{Bytes, Chunk, NoMemory};
use rtt_show::{append_day_line, append_time, day_of};
use std::alloc::Global;

/// A line: its moment in milliseconds, and where what stands behind the time of day lies, with its line feed.
#[derive(Clone, Copy)]
pub(crate) struct Span {
    pub at: u64,
    pub from: usize,
    pub to: usize,
}

/// The lines of all streams.
#[derive(Drop)]
pub(crate) struct Lines {
    pub spans: Vec<Span>,
    pub octets: Bytes,
}

/// Appends a number.
pub(crate) fn append_decimal(number: u64, out: &mut Bytes) -> Result<(), NoMemory>
    ensures { OnOk result (out.new ≡ out.old ++ decimal number) }
{
    let mut digits = Buffer::new();
    out.append(digits.format(number).as_bytes())
}

/// Appends a number as packets have it.
fn append_on_wire(number: u64, out: &mut Bytes) -> Result<(), NoMemory>
    ensures { OnOk result (out.new ≡ out.old ++ on_wire number) }
{
    append_decimal(number % 65536, out)
}

/// Appends how a source of a stream is named.
pub(crate) fn append_name(ssrc: u32, source: u32, out: &mut Bytes) -> Result<(), NoMemory>
    ensures { OnOk result (out.new ≡ out.old ++ name_of ssrc source) }
{
    append_decimal(u64::from(ssrc), out)?;
    if source == ssrc {
        return Ok(());
    }
    out.append(b"/")?;
    append_decimal(u64::from(source), out)
}

/// Appends a text with its escapes behind this name, and a line feed; nothing, where nothing is left of it.
fn append_said(name: &[u8], text: &[u8], out: &mut Bytes) -> Result<(), NoMemory>
    requires { IsUtf8 text.now }
    ensures { OnOk result (out.new ≡ out.old ++ said_line name.now text.now) }
{
    let from = out.len();
    out.append(name)?;
    let before = out.len();
    append_escaped(text, out)?;
    if out.len() == before {
        out.truncate(from);
        return Ok(());
    }
    out.push(b'\n')
}

/// Appends which numbers were lost.
fn append_lost(ssrc: u32, first: u64, last: u64, out: &mut Bytes) -> Result<(), NoMemory>
    ensures { OnOk result (out.new ≡ out.old ++ printed_line (told_text ssrc (LostRow (first, last)))) }
{
    append_decimal(u64::from(ssrc), out)?;
    out.append(b" lost ")?;
    append_on_wire(first, out)?;
    if first != last {
        out.append(b" to ")?;
        append_on_wire(last, out)?;
    }
    out.push(b'\n')
}

/// Appends which number came late.
fn append_late(ssrc: u32, number: u64, out: &mut Bytes) -> Result<(), NoMemory>
    ensures { OnOk result (out.new ≡ out.old ++ printed_line (told_text ssrc (LateNumber number))) }
{
    append_decimal(u64::from(ssrc), out)?;
    out.append(b" late ")?;
    append_on_wire(number, out)?;
    out.push(b'\n')
}

/// Appends a line with its moment, in milliseconds since 1970, behind one of this day.
fn append_line(day: u64, moment: u64, line: &[u8], out: &mut Bytes) -> Result<(), NoMemory>
    requires { moment < 2 ^ 49 }
    ensures { OnOk result (out.new ≡ out.old ++ timed_line day moment line.now) }
{
    append_day_line(day, day_of(moment), out)?;
    append_time(moment, b' ', out)?;
    out.append(line)
}

/// The moment in milliseconds since 1970, so many behind the start.
#[inline(always)]
fn moment_behind(start: u64, at: u64) -> u64
    requires start { start < 2 ^ 48 }
    requires early { at < 2 ^ 48 }
    ensures moment { result ≡ start + at }
    ensures early { result < 2 ^ 49 }
{
    start + at
}

impl Lines {
    pub(crate) fn new(alloc: Global) -> Lines
        ensures { Keeps result [] }
    {
        Lines {
            spans: Vec::new(alloc),
            octets: Bytes::new(alloc),
        }
    }

    /// Keeps what was appended from here on as a line.
    fn keep(&mut self, at: u64, from: usize) -> Result<(), NoMemory>
        ensures { OnOk result (KeepsFrom at from self.old self.new) }
    {
        let to = self.octets.len();
        self.spans.push(Span { at, from, to })?;
        Ok(())
    }

    /// Adds the line of a text behind this name, unless nothing is left of it.
    pub(crate) fn add_text(&mut self, name: &[u8], chunk: &Chunk) -> Result<(), NoMemory>
        requires { IsUtf8 chunk.now.text }
        ensures { OnOk result (AddsText name.now (chunk_of chunk.now) self.old self.new) }
    {
        let from = self.octets.len();
        append_said(name, chunk.text.as_slice(), &mut self.octets)?;
        if self.octets.len() == from {
            return Ok(());
        }
        self.keep(chunk.ready, from)
    }

    /// Adds the line of a row of numbers that were lost.
    pub(crate) fn add_lost(
        &mut self,
        at: u64,
        ssrc: u32,
        first: u64,
        last: u64,
    ) -> Result<(), NoMemory>
        ensures { OnOk result (AddsLines self.old (written (record { at = at; ssrc = ssrc; told = LostRow (first, last) }) ∷ []) self.new) }
    {
        let from = self.octets.len();
        append_lost(ssrc, first, last, &mut self.octets)?;
        self.keep(at, from)
    }

    /// Adds the line of a number that came late.
    pub(crate) fn add_late(&mut self, at: u64, ssrc: u32, number: u64) -> Result<(), NoMemory>
        ensures { OnOk result (AddsLines self.old (written (record { at = at; ssrc = ssrc; told = LateNumber number }) ∷ []) self.new) }
    {
        let from = self.octets.len();
        append_late(ssrc, number, &mut self.octets)?;
        self.keep(at, from)
    }

    /// Brings the lines into the order of their moments. Those of one moment stand as before.
    pub(crate) fn sort(&mut self) -> Result<(), NoMemory>
        ensures { OnOk result (Sorts self.old self.new) }
    {
        self.spans.sort_by_key(|line| line.at)?;
        Ok(())
    }

    /// What stands behind the time of day of a line.
    fn text_of(&self, line: Span) -> &[u8]
        requires { LiesIn self.now.octets line }
        ensures { result.now ≡ drop line.from (take line.to self.now.octets) }
    {
        &self.octets.as_slice()[line.from..line.to]
    }

    /// Appends the lines as they stand, with their times, of a recording that began at this moment, in milliseconds since
    /// 1970.
    pub(crate) fn append_timed(&self, start: u64, out: &mut Bytes) -> Result<(), NoMemory>
        requires start { start < 2 ^ 48 }
        requires early { AreEarly self.now }
        ensures { OnOk result (IsTimed self.now start out.old out.new) }
    {
        let mut day = day_of(start);
        let spans = self.spans.as_slice();
        for index in 0..spans.len() {
            let line = spans[index];
            let moment = moment_behind(start, line.at);
            append_line(day, moment, self.text_of(line), out)?;
            day = day_of(moment);
        }
        Ok(())
    }
}
