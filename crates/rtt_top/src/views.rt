//! What `list`, `show`, `times`, `read` and `script` print of a recording.
ghost use Rattle.std.specs.Prelude.{◌≡◌, ◌<◌, ◌^◌, ℕ, List, None, false, OnOk, IfOk, IfErr, IfSome};
ghost use Rattle.rtpdump_io.specs.Reading.{is_ended, source_of, to_come};
ghost use Rattle.rtpdump_io.specs.Faults.{FaultOf, HasCause};
ghost use Rattle.command_spec.specs.Reading.{read_view};
ghost use Rattle.command_spec.specs.declared.requests.ReadRequest.{ReadRequest};
ghost use Rattle.recording_views.specs.Recordings.{HasHeard, HasHeardOne};
ghost use Rattle.rtt_top.specs.RecordingViews.{IsViewFrom, IsViewOf, IsRefusal, refused_by, view_by};

use command_spec::ReadRequest;
use recording_views::{hear_recording, list_records, script_recording};
use rtpdump_io::{DumpReader, RecordingFault};
use rtt_base::{Bytes, NoMemory as OutOfMemory, PayloadTypes};
use rtt_io::Source;
use rtt_show::show_recording;
use rtt_times::times_recording;
use rtt_words::ReadWords;
use std::alloc::Global;
use terminal::{Terminal, View};

/// What is read of a recording by these words.
pub(crate) fn request_of(words: &ReadWords<'_>) -> ReadRequest
    ensures { result ≡ record {
      ssrc = words.now.ssrc;
      source = words.now.source;
      payload_types =
          words.now.payload_types;
    } }
{
    ReadRequest {
        ssrc: words.ssrc,
        source: words.source,
        payload_types: words.payload_types,
    }
}

/// What is printed of a recording.
#[derive(Clone, Copy)]
pub(crate) enum RecordingView {
    /// `list`: a line for each record, under these payload types.
    Lines(PayloadTypes),
    /// `show`: all that it has, as far as it can be read, under these payload types.
    Streams(PayloadTypes),
    /// `times`: what came in it by the clock, as far as it can be read, under these payload types.
    Times(PayloadTypes),
    /// `read`: the text that is asked for.
    Text(ReadRequest),
    /// `script`: when each text that is asked for could be read.
    Transcript(ReadRequest),
}

/// The text that a terminal shows, as it is printed.
fn text_of(alloc: Global, terminal: &Terminal) -> Result<Bytes, OutOfMemory>
    requires { HasHeardOne terminal.now }
    ensures { IfOk result (λ text. (r : ReadRequest) (octets : List ℕ) → HasHeard r octets terminal.now → text ≡ read_view r octets) }
{
    let mut text = Bytes::new(alloc);
    terminal.append_view(alloc, View::Text, &mut text)?;
    Ok(text)
}

/// Reads the recording, and makes the view of the text that is asked for.
fn text_heard<S: Source>(
    alloc: Global,
    reader: &mut DumpReader<S>,
    request: ReadRequest,
) -> Result<Bytes, RecordingFault>
    requires open { is_ended reader.old ≡ false }
    ensures view { S.tells → IfOk result (IsViewOf (read_view request) (to_come S.left reader.old)) }
    ensures whole { S.tells → OnOk result ((to_come S.left reader.old).fault ≡ None) }
    ensures refused { S.tells → IfErr result (FaultOf (to_come S.left reader.old)) }
    ensures failed { IfErr result (HasCause S.faults reader.old reader.new) }
    ensures same_name { S.name (source_of reader.new) ≡ S.name (source_of reader.old) }
{
    match hear_recording(alloc, reader, request) {
        Ok(terminal) => match text_of(alloc, &terminal) {
            Ok(text) => Ok(text),
            Err(_) => Err(RecordingFault::NoMemory),
        },
        Err(fault) => Err(fault),
    }
}

impl RecordingView {
    /// Reads the recording, which began at `start`, in milliseconds since 1970, and makes what is printed of it.
    pub(crate) fn view_of<S: Source>(
        self,
        alloc: Global,
        reader: &mut DumpReader<S>,
        start: Option<u64>,
    ) -> Result<Bytes, RecordingFault>
        requires open { is_ended reader.old ≡ false }
        requires start { IfSome start (λ start. start < 2 ^ 48) }
        ensures view { S.tells → IfOk result (IsViewFrom (view_by self) start (to_come S.left reader.old)) }
        ensures whole { S.tells → OnOk result (refused_by self (to_come S.left reader.old).fault ≡ None) }
        ensures refused { S.tells → IfErr result (IsRefusal (refused_by self (to_come S.left reader.old).fault)) }
        ensures failed { IfErr result (HasCause S.faults reader.old reader.new) }
        ensures same_name { S.name (source_of reader.new) ≡ S.name (source_of reader.old) }
    {
        match self {
            RecordingView::Lines(payload_types) => list_records(alloc, reader, payload_types),
            RecordingView::Streams(payload_types) => show_recording(
                alloc,
                reader,
                start,
                payload_types,
            ),
            RecordingView::Times(payload_types) => times_recording(
                alloc,
                reader,
                start,
                payload_types,
            ),
            RecordingView::Text(request) => text_heard(alloc, reader, request),
            RecordingView::Transcript(request) => script_recording(alloc, reader, request),
        }
    }
}
