//! What is told of the IN of a leg.
ghost use Rattle.std.specs.Prelude.{◌≡◌, ◌≤◌, ◌++◌, codes, option_map, OnOk, IfOk};
ghost use Rattle.std.specs.Str.Lines.{lines};
ghost use Rattle.wire_spec.specs.Dump.{dump};
ghost use Rattle.wire_spec.specs.declared.limits.TheConstants.{MOST_RECORDING_OCTETS};
ghost use Rattle.report_spec.specs.Checking.{line_at};
ghost use Rattle.report_spec.specs.Inputs as inputs;
ghost use Rattle.report_spec.specs.Looks.{legs_as, legs_in, legs_read, legs_unless};
ghost use Rattle.command_spec.specs.Cascading.{odd_line};
ghost use Rattle.file_spec.specs.Conference.{conference_from};
ghost use Rattle.file_spec.specs.declared.conference_lines.Form.TheVariants.{Files};
ghost use Rattle.rtt_check.specs.Reports.{IsLegTold, as_told, dump_fault};

use crate::forms::{foreign, form_of};
use crate::lines::line_at;
use crate::name_texts::append_told;
use crate::refusals::append_shown;
use crate::reports::{Report, begin, copy_of, end, refused};
use crate::sentences::{STREAM_SENTENCE, form_name, input_dump_sentence, input_sentence};
use crate::streams::{LegContent, hear_leg};
use crate::trunks::odd_line;
use command_spec::Refusal;
use conf_text::{ConfFault, read_conf};
use file_spec::{Form, LegLine, Legs};
use itoa::Buffer;
use mixer_spec::limits::{MOST_INPUT_OF_MANY, PLACES};
use report_spec::limits::MOST_CHECKED_OCTETS;
use report_spec::{FileForm, Stream};
use rtpdump_io::{DumpFault, DumpReader, RecordingFault};
use rtt_base::{Bytes, NoMemory};
use rtt_io::SteadySource;
use std::alloc::Global;
use wire_spec::limits::MOST_RECORDING_OCTETS;

/// How many octets an IN of these legs may have.
pub fn most_of_input(legs: &[LegLine]) -> u32
    ensures most { result ≡ inputs.most_of_input legs.now }
    ensures within { result ≤ MOST_RECORDING_OCTETS }
{
    if legs.len() > PLACES {
        MOST_INPUT_OF_MANY
    } else {
        MOST_RECORDING_OCTETS
    }
}

/// What is told of an IN or a port in which something is wrong ends with the line of the leg, and a sentence.
pub(crate) fn fault_ended(
    mut text: Bytes,
    line: Option<&[u8]>,
    sentence: &[u8],
) -> Result<Report, NoMemory>
    ensures { IfOk result (λ report. as_told report ≡ inputs.ended text (option_map (λ l. l.now) line.entry) sentence.now) }
{
    text.append(b"\n")?;
    append_shown(&mut text, line)?;
    end(text, sentence)
}

/// What is told of an IN begins with what the file is that names it, and its name.
fn begin_input(alloc: Global, leg: &LegLine) -> Result<Bytes, NoMemory>
    ensures { IfOk result (λ text. text ≡ inputs.begun leg.now) }
{
    let mut text = begin(alloc, FileForm::Recordings)?;
    append_told(&mut text, leg.input.as_str())?;
    Ok(text)
}

/// An IN of this form.
fn input_form(
    alloc: Global,
    form: FileForm,
    leg: &LegLine,
    line: Option<&[u8]>,
) -> Result<Report, NoMemory>
    ensures { IfOk result (λ report. as_told report ≡ inputs.input_form form leg.now (option_map (λ l. l.now) line.entry)) }
{
    let mut text = begin_input(alloc, leg)?;
    text.append(b" is: ")?;
    text.append(form_name(form))?;
    fault_ended(text, line, input_sentence(form))
}

/// An IN that is a recording in which something is wrong.
fn dump_refused(
    alloc: Global,
    leg: &LegLine,
    octets: &[u8],
    fault: DumpFault,
) -> Result<Report, NoMemory>
    ensures { IfOk result (λ report. as_told report ≡ inputs.dump_refused leg.now octets.now (dump_fault fault)) }
{
    let DumpFault { offset, kind } = fault;
    let refusal = Refusal::AtByte { byte: offset, kind };
    let sentence = input_dump_sentence(kind);
    refused(
        alloc,
        FileForm::Recordings,
        leg.input.as_str(),
        octets,
        refusal,
        sentence,
    )
}

/// What a file is.
fn form_in(alloc: Global, octets: &[u8]) -> Result<FileForm, NoMemory>
    ensures { IfOk result (λ form. form ≡ inputs.form_in octets.now) }
{
    match foreign(octets) {
        Some(form) => Ok(form),
        None => form_of(alloc, octets),
    }
}

/// An IN of this form, which is no recording, or one in which something is wrong.
fn faulty_as(
    alloc: Global,
    form: FileForm,
    leg: &LegLine,
    line: Option<&[u8]>,
    octets: &[u8],
    fault: DumpFault,
) -> Result<Report, NoMemory>
    ensures { IfOk result (λ report. as_told report ≡ inputs.input_faulty form leg.now (option_map (λ l. l.now) line.entry)
        octets.now (dump_fault fault)) }
{
    match form {
        FileForm::Recording => dump_refused(alloc, leg, octets, fault),
        other => input_form(alloc, other, leg, line),
    }
}

/// An IN that is no recording, or one in which something is wrong.
fn input_faulty(
    alloc: Global,
    leg: &LegLine,
    line: Option<&[u8]>,
    octets: &[u8],
    fault: DumpFault,
) -> Result<Report, NoMemory>
    ensures { IfOk result (λ report. as_told report ≡ inputs.input_faulty (inputs.form_in octets.now) leg.now (option_map (λ l. l.now) line.entry)
        octets.now (dump_fault fault)) }
{
    let form = form_in(alloc, octets)?;
    faulty_as(alloc, form, leg, line, octets, fault)
}

/// Appends what a recording has in place of packets of its leg.
fn append_instead(text: &mut Bytes, first: Option<Stream>) -> Result<(), NoMemory>
    ensures { OnOk result (text.new ≡ text.old ++ inputs.has_instead first) }
{
    let Some(stream) = first else {
        return text.append(b" has no packets");
    };
    let mut digits = Buffer::new();
    text.append(b" has SSRC ")?;
    text.append(digits.format(stream.ssrc).as_bytes())?;
    text.append(b", type ")?;
    text.append(digits.format(stream.pt).as_bytes())
}

/// An IN that has no packets of its leg.
fn not_heard(
    alloc: Global,
    first: Option<Stream>,
    leg: &LegLine,
    line: Option<&[u8]>,
) -> Result<Report, NoMemory>
    ensures { IfOk result (λ report. as_told report ≡ inputs.not_heard first leg.now (option_map (λ l. l.now) line.entry)) }
{
    let mut text = begin_input(alloc, leg)?;
    append_instead(&mut text, first)?;
    fault_ended(text, line, STREAM_SENTENCE)
}

/// A recording that has this for its leg.
fn unless_heard(
    alloc: Global,
    heard: LegContent,
    leg: &LegLine,
    line: Option<&[u8]>,
) -> Result<Option<Report>, NoMemory>
    ensures { IfOk result (λ found. option_map as_told found ≡ inputs.unless_heard heard.heard heard.first leg.now (option_map (λ l. l.now) line.entry)) }
{
    if heard.heard {
        return Ok(None);
    }
    let report = not_heard(alloc, heard.first, leg, line)?;
    Ok(Some(report))
}

/// An IN that is read as a recording of so many octets at most.
fn recording_told(
    alloc: Global,
    limit: u32,
    leg: &LegLine,
    line: Option<&[u8]>,
    octets: &[u8],
) -> Result<Option<Report>, NoMemory>
    requires { limit ≤ MOST_RECORDING_OCTETS }
    ensures { IfOk result (λ found. option_map as_told found ≡ inputs.recording_told leg.now (option_map (λ l. l.now) line.entry) octets.now (dump limit octets.now)) }
{
    let copy = copy_of(alloc, octets)?;
    let mut reader = DumpReader::with_limit(SteadySource::new(copy), limit);
    match hear_leg(&mut reader, leg) {
        Ok(heard) => unless_heard(alloc, heard, leg, line),
        Err(RecordingFault::Dump(fault)) => {
            let report = input_faulty(alloc, leg, line, octets, fault)?;
            Ok(Some(report))
        }
        Err(RecordingFault::NoMemory) => Err(NoMemory),
    }
}

/// What is told of the IN of a leg of the conference with the octets `conference`, where it may have `limit` octets and has these.
/// Nothing is where all is well.
pub fn leg_told(
    alloc: Global,
    limit: u32,
    conference: &[u8],
    leg: &LegLine,
    octets: &[u8],
) -> Result<Option<Report>, NoMemory>
    requires { limit ≤ MOST_RECORDING_OCTETS }
    ensures { IfOk result (IsLegTold limit conference.now leg.now octets.now) }
{
    let line = line_at(conference, leg.line);
    if octets.len() > MOST_CHECKED_OCTETS {
        let report = input_form(alloc, FileForm::TooLarge, leg, line)?;
        return Ok(Some(report));
    }
    recording_told(alloc, limit, leg, line, octets)
}

/// The legs of a conference whose INs are looked at.
fn legs_unless(alloc: Global, odd: Option<u32>, legs: Legs) -> Legs
    ensures { result ≡ legs_unless odd legs }
{
    match odd {
        None => legs,
        Some(_) => Legs::new(alloc),
    }
}

fn legs_read(alloc: Global, octets: &[u8]) -> Result<Legs, NoMemory>
    ensures { IfOk result (λ legs. legs ≡ legs_read (conference_from Files octets.now)) }
{
    match read_conf(alloc, octets, Form::Files) {
        Ok(conference) => {
            let odd = odd_line(conference.legs.as_slice());
            Ok(legs_unless(alloc, odd, conference.legs))
        }
        Err(ConfFault::Refused { .. }) => Ok(Legs::new(alloc)),
        Err(ConfFault::NoMemory) => Err(NoMemory),
    }
}

fn legs_as(alloc: Global, form: FileForm, octets: &[u8]) -> Result<Legs, NoMemory>
    ensures { IfOk result (λ legs. legs ≡ legs_as form octets.now) }
{
    match form {
        FileForm::Recordings => legs_read(alloc, octets),
        _ => Ok(Legs::new(alloc)),
    }
}

/// The legs whose INs are looked at where a file has these octets: those of a conference of recordings.
pub fn legs_in(alloc: Global, octets: &[u8]) -> Result<Legs, NoMemory>
    ensures { IfOk result (λ legs. legs ≡ legs_in octets.now) }
{
    if let Some(_) = foreign(octets) {
        return Ok(Legs::new(alloc));
    }
    if octets.len() > MOST_CHECKED_OCTETS {
        return Ok(Legs::new(alloc));
    }
    let form = form_of(alloc, octets)?;
    legs_as(alloc, form, octets)
}
