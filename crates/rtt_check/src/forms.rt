//! What a file is.
ghost use Rattle.std.specs.Prelude.{◌≡◌, IfOk};
ghost use Rattle.std.specs.Str.Lines.{lines};
ghost use Rattle.report_spec.specs.Forms.{begins, conference_of, fault_line, first_said, foreign, form_of, furthest, goes_further, has_mark, is_right_to, is_utf16, mixed_of, other_text, text_form, without_mark};

use crate::lines::{LineContent, begins_with_moment, first_said, has_line};
use conf_text::{ConfFault, read_conf};
use file_spec::Form;
use report_spec::FileForm;
use rtt_base::NoMemory;
use std::alloc::Global;

fn begins(octets: &[u8], front: &[u8]) -> bool
    ensures { result ≡ begins octets.now front.now }
{
    octets.starts_with(front)
}

/// A capture or a compressed file.
pub(crate) fn foreign(octets: &[u8]) -> Option<FileForm>
    ensures { result ≡ foreign octets.now }
{
    if begins(octets, b"\x1F\x8B") {
        Some(FileForm::Gzip)
    } else if begins(octets, b"\xD4\xC3\xB2\xA1")
        || begins(octets, b"\xA1\xB2\xC3\xD4")
        || begins(octets, b"\x4D\x3C\xB2\xA1")
        || begins(octets, b"\xA1\xB2\x3C\x4D")
    {
        Some(FileForm::Pcap)
    } else if begins(octets, b"\x0A\x0D\x0D\x0A") {
        Some(FileForm::PcapNg)
    } else {
        None
    }
}

/// Whether the byte order mark of UTF-8 stands in front.
pub(crate) fn has_mark(octets: &[u8]) -> bool
    ensures { result ≡ has_mark octets.now }
{
    begins(octets, b"\xEF\xBB\xBF")
}

fn without_mark(octets: &[u8]) -> &[u8]
    ensures { result.now ≡ without_mark octets.now }
{
    if has_mark(octets) {
        &octets[3..]
    } else {
        octets
    }
}

fn is_utf16(octets: &[u8]) -> bool
    ensures { result ≡ is_utf16 octets.now }
{
    begins(octets, b"\xFF\xFE") || begins(octets, b"\xFE\xFF")
}

/// The line of the first fault of a conference of this form.
fn fault_line(alloc: Global, form: Form, text: &[u8]) -> Result<Option<u32>, NoMemory>
    ensures { IfOk result (λ line. line ≡ fault_line form text.now) }
{
    match read_conf(alloc, text, form) {
        Ok(_) => Ok(None),
        Err(ConfFault::Refused { line, kind: _ }) => Ok(Some(line)),
        Err(ConfFault::NoMemory) => Err(NoMemory),
    }
}

/// Whether there is no fault in the lines up to this one.
fn is_right_to(line: u32, fault: Option<u32>) -> bool
    ensures { result ≡ is_right_to line fault }
{
    match fault {
        None => true,
        Some(fault) => line < fault,
    }
}

/// Whether what has the one first fault goes further than what has the other.
fn goes_further(fault: Option<u32>, other: Option<u32>) -> bool
    ensures { result ≡ goes_further fault other }
{
    match other {
        None => false,
        Some(line) => is_right_to(line, fault),
    }
}

/// The form in which a conference goes furthest.
fn furthest(alloc: Global, text: &[u8]) -> Result<FileForm, NoMemory>
    ensures { IfOk result (λ form. form ≡ furthest text.now) }
{
    let of_links = fault_line(alloc, Form::Links, text)?;
    let of_files = fault_line(alloc, Form::Files, text)?;
    if goes_further(of_links, of_files) {
        Ok(FileForm::Links)
    } else {
        Ok(FileForm::Recordings)
    }
}

/// A conference with a leg over a link.
fn mixed_of(alloc: Global, text: &[u8]) -> Result<FileForm, NoMemory>
    ensures { IfOk result (λ form. form ≡ mixed_of text.now) }
{
    if has_line(alloc, text, LineContent::Recording)? {
        furthest(alloc, text)
    } else {
        Ok(FileForm::Links)
    }
}

fn conference_of(alloc: Global, text: &[u8]) -> Result<FileForm, NoMemory>
    ensures { IfOk result (λ form. form ≡ conference_of text.now) }
{
    if has_line(alloc, text, LineContent::Link)? {
        mixed_of(alloc, text)
    } else {
        Ok(FileForm::Recordings)
    }
}

fn other_text(alloc: Global, text: &[u8]) -> Result<FileForm, NoMemory>
    ensures { IfOk result (λ form. form ≡ other_text text.now) }
{
    if has_line(alloc, text, LineContent::LegOrMixer)? {
        conference_of(alloc, text)
    } else {
        Ok(FileForm::Nothing)
    }
}

fn text_form(alloc: Global, text: &[u8]) -> Result<FileForm, NoMemory>
    ensures { IfOk result (λ form. form ≡ text_form (first_said (lines text.now)) text.now) }
{
    match first_said(text) {
        None => Ok(FileForm::Script),
        Some(line) if begins_with_moment(line) => Ok(FileForm::Script),
        Some(_) => other_text(alloc, text),
    }
}

/// What a file is that is none of a foreign form.
pub(crate) fn form_of(alloc: Global, octets: &[u8]) -> Result<FileForm, NoMemory>
    ensures { IfOk result (λ form. form ≡ form_of octets.now) }
{
    if octets.is_empty() {
        Ok(FileForm::Empty)
    } else if begins(octets, b"#!rtpplay1.0 ") {
        Ok(FileForm::Recording)
    } else if begins(octets, b"\0") {
        Ok(FileForm::Frames)
    } else if is_utf16(octets) {
        Ok(FileForm::Utf16)
    } else {
        text_form(alloc, without_mark(octets))
    }
}
