//! What is told of a file.
ghost use Rattle.std.specs.Prelude.{◌≡◌, ◌++◌, [], codes, false, IfOk};
ghost use Rattle.report_spec.specs.Checking as checking;
ghost use Rattle.report_spec.specs.Sentences.{form_name};
ghost use Rattle.command_spec.specs.Cascading.{odd_line};
ghost use Rattle.command_spec.specs.Frames.{AreTyped};
ghost use Rattle.command_spec.specs.Scripts.{full_line};
ghost use Rattle.rtt_check.specs.Reports.{as_told, shown_of};

use crate::forms::{foreign, form_of, has_mark};
use crate::lines::{line_at, word_in};
use crate::packets::count_packets;
use crate::refusals::{append_refusal, append_shown_of};
use crate::sentences::{
    CASCADE_NAME, MARK_SENTENCE, conference_sentence, dump_sentence, form_name, form_sentence,
    frame_sentence, script_sentence, trunk_sentence,
};
use crate::trunks::{is_on_trunk, odd_line};
use command_spec::Refusal;
use conf_text::{ConfFault, read_conf};
use file_spec::{ConfKind, Form, FrameRefusal, LegLine};
use itoa::Buffer;
use report_spec::FileForm;
use report_spec::limits::MOST_CHECKED_OCTETS;
use rtpdump_io::{DumpFault, DumpReader, RecordingFault};
use rtt_base::{Bytes, NoMemory};
use rtt_io::SteadySource;
use script_text::{Script, read_script};
use std::alloc::Global;
use text_conversions::{RelayFault, SendFault, relay_frames, send_script, usual_settings};

/// What is told of a file, and whether the program takes it.
#[derive(Debug, Drop)]
pub struct Report {
    /// Lines, each of which ends with a line feed.
    pub text: Bytes,
    pub taken: bool,
}

/// What is told as this is whole, with so many of a unit.
fn whole_as(alloc: Global, what: &[u8], count: u64, unit: &[u8]) -> Result<Report, NoMemory>
    ensures { IfOk result (λ report. as_told report ≡ checking.whole_as what.now count unit.now) }
{
    let mut digits = Buffer::new();
    let mut text = Bytes::new(alloc);
    text.append(what)?;
    text.append(b": ")?;
    text.append(digits.format(count).as_bytes())?;
    text.append(unit)?;
    text.append(b", whole\n")?;
    Ok(Report { text, taken: true })
}

/// A file that is whole, with so many of a unit.
fn whole(alloc: Global, form: FileForm, count: u64, unit: &[u8]) -> Result<Report, NoMemory>
    ensures { IfOk result (λ report. as_told report ≡ checking.whole form count unit.now) }
{
    whole_as(alloc, form_name(form), count, unit)
}

/// A file of which nothing is taken.
fn untaken(alloc: Global, form: FileForm) -> Result<Report, NoMemory>
    ensures { IfOk result (λ report. as_told report ≡ checking.untaken form) }
{
    let mut text = Bytes::new(alloc);
    text.append(form_name(form))?;
    text.append(b"\n")?;
    text.append(form_sentence(form))?;
    text.append(b"\n")?;
    Ok(Report { text, taken: false })
}

/// What is told of a refusal begins with what the file is.
pub(crate) fn begin(alloc: Global, form: FileForm) -> Result<Bytes, NoMemory>
    ensures { IfOk result (λ text. text ≡ form_name form ++ codes "\n") }
{
    let mut text = Bytes::new(alloc);
    text.append(form_name(form))?;
    text.append(b"\n")?;
    Ok(text)
}

/// It ends with a sentence.
pub(crate) fn end(mut text: Bytes, sentence: &[u8]) -> Result<Report, NoMemory>
    ensures { IfOk result (λ report. (report.text ≡ text ++ (sentence.now ++ codes "\n")) × (report.taken ≡ false)) }
{
    text.append(sentence)?;
    text.append(b"\n")?;
    Ok(Report { text, taken: false })
}

pub(crate) fn copy_of(alloc: Global, octets: &[u8]) -> Result<Bytes, NoMemory>
    ensures { IfOk result (λ copy. copy ≡ octets.now) }
{
    let mut copy = Bytes::new(alloc);
    copy.append(octets)?;
    Ok(copy)
}

/// A file of this form that is refused, and what to do.
pub(crate) fn refused(
    alloc: Global,
    form: FileForm,
    name: &str,
    octets: &[u8],
    refusal: Refusal,
    sentence: &[u8],
) -> Result<Report, NoMemory>
    ensures { IfOk result (λ report. as_told report ≡ checking.refused form name.now refusal
        (shown_of octets.now refusal) sentence.now) }
{
    let mut text = begin(alloc, form)?;
    append_refusal(&mut text, name, refusal)?;
    append_shown_of(&mut text, octets, refusal)?;
    end(text, sentence)
}

fn recording_report(alloc: Global, name: &str, octets: &[u8]) -> Result<Report, NoMemory>
    ensures { IfOk result (λ report. as_told report ≡ checking.recording_report name.now octets.now) }
{
    let copy = copy_of(alloc, octets)?;
    let mut reader = DumpReader::new(SteadySource::new(copy));
    match count_packets(&mut reader) {
        Ok(packets) => whole(alloc, FileForm::Recording, u64::from(packets), b" packets"),
        Err(RecordingFault::Dump(DumpFault { offset, kind })) => {
            let refusal = Refusal::AtByte { byte: offset, kind };
            refused(
                alloc,
                FileForm::Recording,
                name,
                octets,
                refusal,
                dump_sentence(kind),
            )
        }
        Err(RecordingFault::NoMemory) => Err(NoMemory),
    }
}

/// The sentence, unless a byte order mark stands in front of the file.
fn unless_mark<'a>(octets: &[u8], sentence: &'a [u8]) -> &'a [u8]
    ensures { result.now ≡ checking.unless_mark octets.now sentence.now }
{
    if has_mark(octets) {
        MARK_SENTENCE
    } else {
        sentence
    }
}

fn script_refused(
    alloc: Global,
    name: &str,
    octets: &[u8],
    line: u32,
    kind: ConfKind,
) -> Result<Report, NoMemory>
    ensures { IfOk result (λ report. as_told report ≡ checking.script_refused name.now octets.now (record { line = line; kind = kind })) }
{
    let refusal = Refusal::AtLine { line, kind };
    let sentence = unless_mark(octets, script_sentence(kind));
    refused(alloc, FileForm::Script, name, octets, refusal, sentence)
}

/// A script all of whose lines are lines, of which one may be full.
fn script_sent(
    alloc: Global,
    name: &str,
    octets: &[u8],
    script: &Script,
) -> Result<Report, NoMemory>
    requires { AreTyped script.now }
    ensures { IfOk result (λ report. as_told report ≡ checking.unless_full name.now octets.now script.now (full_line checking.any_sending script.now)) }
{
    match send_script(alloc, script, usual_settings(0, 0, 0)) {
        Ok(_) => whole(alloc, FileForm::Script, script.len() as u64, b" lines"),
        Err(SendFault::Full { line }) => {
            script_refused(alloc, name, octets, line, ConfKind::Full)
        }
        Err(SendFault::NoMemory) => Err(NoMemory),
    }
}

fn script_report(alloc: Global, name: &str, octets: &[u8]) -> Result<Report, NoMemory>
    ensures { IfOk result (λ report. as_told report ≡ checking.script_report name.now octets.now) }
{
    match read_script(alloc, octets) {
        Ok(script) => script_sent(alloc, name, octets, &script),
        Err(ConfFault::Refused { line, kind }) => {
            script_refused(alloc, name, octets, line, kind)
        }
        Err(ConfFault::NoMemory) => Err(NoMemory),
    }
}

fn form_in(form: Form) -> FileForm
    ensures { result ≡ checking.form_in form }
{
    match form {
        Form::Files => FileForm::Recordings,
        Form::Links => FileForm::Links,
    }
}

/// Whether a leg stands behind another mixer.
fn has_trunk(legs: &[LegLine]) -> bool
    ensures { result ≡ checking.has_trunk legs.now }
{
    match legs {
        [leg, more @ ..] => is_on_trunk(leg) || has_trunk(more),
        [] => false,
    }
}

/// What a conference of recordings with these legs is.
fn recordings_name(legs: &[LegLine]) -> &'static [u8]
    ensures { result.now ≡ checking.recordings_name legs.now }
{
    if has_trunk(legs) {
        CASCADE_NAME
    } else {
        form_name(FileForm::Recordings)
    }
}

/// A conference of recordings that is whole, unless it is wrong for `cascade`.
fn unless_odd(
    alloc: Global,
    name: &str,
    octets: &[u8],
    legs: &[LegLine],
) -> Result<Report, NoMemory>
    ensures { IfOk result (λ report. as_told report ≡ checking.unless_odd name.now octets.now legs.now (odd_line legs.now)) }
{
    match odd_line(legs) {
        Some(line) => {
            let refusal = Refusal::AtTrunk { line };
            refused(
                alloc,
                FileForm::Recordings,
                name,
                octets,
                refusal,
                trunk_sentence(),
            )
        }
        None => whole_as(alloc, recordings_name(legs), legs.len() as u64, b" legs"),
    }
}

/// A conference that was read.
fn conference_whole(
    alloc: Global,
    form: Form,
    name: &str,
    octets: &[u8],
    legs: &[LegLine],
) -> Result<Report, NoMemory>
    ensures { IfOk result (λ report. as_told report ≡ checking.conference_whole form name.now octets.now legs.now) }
{
    match form {
        Form::Files => unless_odd(alloc, name, octets, legs),
        Form::Links => whole(alloc, FileForm::Links, legs.len() as u64, b" legs"),
    }
}

fn conference_report(
    alloc: Global,
    form: Form,
    name: &str,
    octets: &[u8],
) -> Result<Report, NoMemory>
    ensures { IfOk result (λ report. as_told report ≡ checking.conference_report form name.now octets.now) }
{
    match read_conf(alloc, octets, form) {
        Ok(conference) => conference_whole(alloc, form, name, octets, conference.legs.as_slice()),
        Err(ConfFault::Refused { line, kind }) => {
            let word = word_in(alloc, line_at(octets, line))?;
            let refusal = Refusal::AtLine { line, kind };
            let sentence = unless_mark(octets, conference_sentence(form, word, kind));
            refused(alloc, form_in(form), name, octets, refusal, sentence)
        }
        Err(ConfFault::NoMemory) => Err(NoMemory),
    }
}

fn frames_report(alloc: Global, name: &str, octets: &[u8]) -> Result<Report, NoMemory>
    ensures { IfOk result (λ report. as_told report ≡ checking.frames_report name.now octets.now) }
{
    match relay_frames(alloc, octets, usual_settings(0, 0, 0)) {
        Ok(_) => whole(alloc, FileForm::Frames, octets.len() as u64, b" octets"),
        Err(RelayFault::Refused(FrameRefusal { offset, kind })) => {
            let refusal = Refusal::AtFrame { byte: offset, kind };
            refused(
                alloc,
                FileForm::Frames,
                name,
                octets,
                refusal,
                frame_sentence(kind),
            )
        }
        Err(RelayFault::NoMemory) => Err(NoMemory),
    }
}

fn report_as(alloc: Global, form: FileForm, name: &str, octets: &[u8]) -> Result<Report, NoMemory>
    ensures { IfOk result (λ report. as_told report ≡ checking.report_as form name.now octets.now) }
{
    match form {
        FileForm::Recording => recording_report(alloc, name, octets),
        FileForm::Frames => frames_report(alloc, name, octets),
        FileForm::Script => script_report(alloc, name, octets),
        FileForm::Recordings => conference_report(alloc, Form::Files, name, octets),
        FileForm::Links => conference_report(alloc, Form::Links, name, octets),
        FileForm::Gzip
        | FileForm::Pcap
        | FileForm::PcapNg
        | FileForm::TooLarge
        | FileForm::Empty
        | FileForm::Utf16
        | FileForm::Nothing => untaken(alloc, form),
    }
}

/// What is told of a file of this name that has these octets, alone.
pub fn report_of(alloc: Global, name: &str, octets: &[u8]) -> Result<Report, NoMemory>
    ensures { IfOk result (λ report. as_told report ≡ checking.report name.now octets.now) }
{
    if let Some(form) = foreign(octets) {
        return untaken(alloc, form);
    }
    if octets.len() > MOST_CHECKED_OCTETS {
        return untaken(alloc, FileForm::TooLarge);
    }
    let form = form_of(alloc, octets)?;
    report_as(alloc, form, name, octets)
}
