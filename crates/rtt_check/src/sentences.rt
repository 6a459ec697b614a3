//! What is wrong with a file, and what to do.
ghost use Rattle.std.specs.Prelude.{◌≡◌};
ghost use Rattle.report_spec.specs.Sentences.{clash_sentence, conference_sentence, count_sentence, dump_sentence, form_name, form_sentence, frame_sentence, input_dump_sentence, input_sentence, many_sentence, name_sentence, number_sentence, port_sentence, script_sentence, trunk_sentence, twice_sentence, word_sentence};

use file_spec::{ConfKind, Form, FrameKind};
use report_spec::{FileForm, LineWord, PortFault};
use wire_spec::DumpKind;

/// What a file is.
pub(crate) fn form_name(form: FileForm) -> &'static [u8]
    ensures { result.now ≡ form_name form }
{
    match form {
        FileForm::Gzip => b"gzip",
        FileForm::Pcap => b"pcap",
        FileForm::PcapNg => b"pcapng",
        FileForm::TooLarge => b"more than 4194304 octets",
        FileForm::Empty => b"empty",
        FileForm::Utf16 => b"text in UTF-16",
        FileForm::Nothing => b"nothing of these",
        FileForm::Recording => b"recording",
        FileForm::Frames => b"frames",
        FileForm::Script => b"script",
        FileForm::Recordings => b"conference of recordings",
        FileForm::Links => b"conference of links",
    }
}

/// What is wrong with a file of which nothing is taken.
pub(crate) fn form_sentence(form: FileForm) -> &'static [u8]
    ensures { result.now ≡ form_sentence form }
{
    match form {
        FileForm::Gzip => b"the file is compressed: unpack it first",
        FileForm::Pcap | FileForm::PcapNg =>
            b"the program reads no captures: examples/from-pcap makes recordings of one, and Wireshark exports a stream as rtpdump",
        FileForm::TooLarge =>
            b"no file of so many octets is taken: export a call in parts; of a recording show prints the front",
        FileForm::Empty =>
            b"nothing is in the file: as a script and as frames it is taken, and says nothing",
        FileForm::Utf16 => b"save the file as UTF-8 without a byte order mark",
        FileForm::Nothing =>
            b"a recording begins with #!rtpplay1.0, a line of a script with a number, and a conference has lines that begin with mixer and leg",
        FileForm::Recording
        | FileForm::Frames
        | FileForm::Script
        | FileForm::Recordings
        | FileForm::Links => b"",
    }
}

/// What is wrong with a recording.
pub(crate) fn dump_sentence(kind: DumpKind) -> &'static [u8]
    ensures { result.now ≡ dump_sentence kind }
{
    match kind {
        DumpKind::NotDump =>
            b"there is no line feed among the first 128 octets: export the recording as rtpdump anew",
        DumpKind::BadLength =>
            b"the length of a record is below 8, so the file is damaged from this byte on: keep what stands before it, which show prints",
        DumpKind::EndsInside =>
            b"the file ends inside the head or the record that begins at this byte: it was broken off; keep what stands before it, which show prints",
        DumpKind::TooLong =>
            b"the time of a record is above 14400000 milliseconds: export the call in parts, each with times from 0",
        DumpKind::TooLarge =>
            b"the recording has more than 4194304 octets: export the call in parts, or keep what stands before this byte",
        DumpKind::Read => b"the file cannot be read further",
    }
}

/// What is wrong with frames.
pub(crate) fn frame_sentence(kind: FrameKind) -> &'static [u8]
    ensures { result.now ≡ frame_sentence kind }
{
    match kind {
        FrameKind::Time =>
            b"the time of a frame is not before that of the frame in front, and below 16777216: count milliseconds from the first frame, and sort the frames",
        FrameKind::Length =>
            b"the text of a frame has 1 to 1023 octets: leave empty texts out, and part long ones",
        FrameKind::TooLarge => b"frames have at most 1048576 octets: part the file",
        FrameKind::NotText => b"the text of a frame is not UTF-8: cut texts between characters",
        FrameKind::EndsInside =>
            b"the file ends inside the frame that begins at this byte: it was broken off; keep what stands before it",
        FrameKind::Full =>
            b"more than 16384 octets wait to be sent by then: type later, a packet takes 1023 octets each 300 milliseconds",
        FrameKind::ManyFrames =>
            b"the frames would have more than 1048576 octets: write shorter parts of the recording",
    }
}

/// What is wrong with a line of a script.
pub(crate) fn script_sentence(kind: ConfKind) -> &'static [u8]
    ensures { result.now ≡ script_sentence kind }
{
    match kind {
        ConfKind::NotText => b"the line is not UTF-8: save the file as UTF-8",
        ConfKind::Count =>
            b"no space stands in the line: put one, and no tab, behind the number, also where nothing is typed",
        ConfKind::Number =>
            b"before the first space stands a whole number of milliseconds up to 14400000, in decimal digits, and the line begins with it",
        ConfKind::Large => b"a script has at most 1048576 octets: part it",
        ConfKind::Order => b"a line above is later: sort the lines by their numbers",
        ConfKind::Escape =>
            b"a backslash stands before n, b, a or another backslash: write two for one",
        ConfKind::Long => b"a line types at most 1023 octets: make two lines of it",
        ConfKind::Full =>
            b"more than 16384 octets wait to be sent by then: type later, a packet takes 1023 octets each 300 milliseconds",
        ConfKind::Word
        | ConfKind::Name
        | ConfKind::Many
        | ConfKind::PlanMany
        | ConfKind::Twice
        | ConfKind::Clash
        | ConfKind::Few
        | ConfKind::Crowd => b"",
    }
}

/// The first words that lines of a conference of recordings have.
const RECORDINGS_WORDS: &[u8] =
    b"a line begins with mixer, leg, gens, stay, tick, spacing, wait, turns, relabel, mtu, counts, long, lose, delay or twice, in small letters, or with # as its first octet: correct the word, and part words by spaces, not by tabs";

/// The first words that lines of a conference of links have.
const LINKS_WORDS: &[u8] =
    b"a line begins with mixer, leg, gens, tick, spacing, wait, turns, relabel, mtu, counts, long, gone, operator, record or follow, in small letters, or with # as its first octet: correct the word, and part words by spaces, not by tabs";

/// The first word, or how a leg's terminal shows text, is none of those that there are.
fn word_sentence(form: Form, word: LineWord) -> &'static [u8]
    ensures { result.now ≡ word_sentence form word }
{
    match word {
        LineWord::Leg => b"behind the name of a leg stands aware or unaware, in small letters",
        LineWord::Gone | LineWord::Operator | LineWord::Record | LineWord::Follow => match form {
            Form::Files =>
                b"a conference of recordings has no lines gone, operator, record and follow: leave the line out",
            Form::Links => LINKS_WORDS,
        },
        LineWord::Stay | LineWord::Lose | LineWord::Delay | LineWord::Twice => match form {
            Form::Files => RECORDINGS_WORDS,
            Form::Links =>
                b"a conference of links has no lines stay, lose, delay and twice: leave the line out",
        },
        _ => match form {
            Form::Files => RECORDINGS_WORDS,
            Form::Links => LINKS_WORDS,
        },
    }
}

/// The words are too few or too many.
fn count_sentence(word: LineWord) -> &'static [u8]
    ensures { result.now ≡ count_sentence word }
{
    match word {
        LineWord::Leg =>
            b"a leg has the words NAME MODE SSRC IN OUT, and two payload types behind them or none: no name has a space, and a comment needs a line of its own",
        LineWord::Mixer =>
            b"a mixer has the words SSRC SEQ STAMP, and no other: a comment needs a line of its own",
        LineWord::Generations => b"gens has the words NAME N, and no other",
        LineWord::Stay => b"stay has the words NAME FROM UNTIL, and no other",
        LineWord::Operator => b"operator has the words PORT WORD, and no other",
        LineWord::Record => b"record has the word PREFIX, and no other: no name has a space",
        LineWord::Follow => b"follow has the word NAME, and no other",
        LineWord::Long => b"long has the word NAME, and no other",
        LineWord::Counts => b"counts stands alone in its line: a comment needs a line of its own",
        LineWord::Lose => b"lose has the words NAME K, and no other",
        LineWord::Delay => b"delay has the words NAME K MS, and no other",
        LineWord::Twice => b"twice has the words NAME K, and no other",
        _ =>
            b"one number stands behind the word, and nothing else: a comment needs a line of its own",
    }
}

/// A name is none, or nobody's.
fn name_sentence(word: LineWord) -> &'static [u8]
    ensures { result.now ≡ name_sentence word }
{
    match word {
        LineWord::Leg =>
            b"the name of a leg has 1 to 32 letters A to Z and a to z, digits, ., _ and -, and those of files have 1 to 255 octets",
        LineWord::Operator => b"WORD has 8 to 64 letters A to Z and a to z and digits",
        LineWord::Record => b"PREFIX has 1 to 255 octets",
        _ => b"no leg above has this name: correct it, or move the line below that of the leg",
    }
}

/// A number is none, or out of its range.
fn number_sentence(form: Form, word: LineWord) -> &'static [u8]
    ensures { result.now ≡ number_sentence form word }
{
    match word {
        LineWord::Leg => match form {
            Form::Files =>
                b"SSRC is a number up to 4294967295, in decimal digits, and T140 and RED are numbers from 96 to 127",
            Form::Links =>
                b"SSRC is a number up to 4294967295, in decimal digits, IN is a port from 1 to 65535, and T140 and RED are numbers from 96 to 127",
        },
        LineWord::Mixer =>
            b"SSRC and STAMP are numbers up to 4294967295, and SEQ is one up to 65535, in decimal digits",
        LineWord::Generations => b"gens is a number from 0 to 3",
        LineWord::Stay =>
            b"FROM and UNTIL are numbers of milliseconds up to 14400000, and UNTIL is the greater one",
        LineWord::Tick => b"tick is a number of milliseconds from 20 to 200",
        LineWord::Spacing => b"spacing is a number of milliseconds from 100 to 500",
        LineWord::Wait => b"wait is a number of milliseconds from 0 to 10000",
        LineWord::Turns => b"turns is a number from 1 to 5000000",
        LineWord::Relabel => b"relabel is a number of milliseconds from 2000 to 60000",
        LineWord::Mtu => b"mtu is a number of octets from 548 to 4224",
        LineWord::Gone => b"gone is a number of milliseconds from 10000 to 86400000",
        LineWord::Operator => b"PORT is a number from 1 to 65535",
        LineWord::Delay =>
            b"the number of a packet is one from 0 to 4294967295, and MS one of milliseconds up to 60000",
        _ => b"the number of a packet is one from 0 to 4294967295",
    }
}

/// A line above says the same.
fn twice_sentence(word: LineWord) -> &'static [u8]
    ensures { result.now ≡ twice_sentence word }
{
    match word {
        LineWord::Leg => b"a leg above has this name: give each its own",
        LineWord::Generations | LineWord::Stay | LineWord::Follow | LineWord::Long =>
            b"a line above says it of this leg: leave one of them out",
        LineWord::Lose | LineWord::Delay | LineWord::Twice =>
            b"a line above says it of this packet: leave one of them out",
        _ => b"a line above says it: leave one of them out",
    }
}

/// What is to differ is the same.
fn clash_sentence(form: Form, word: LineWord) -> &'static [u8]
    ensures { result.now ≡ clash_sentence form word }
{
    match word {
        LineWord::Operator => b"a leg above has this port: give the operator its own",
        LineWord::Leg => match form {
            Form::Files =>
                b"the SSRC is that of a leg or the mixer above, the OUT is that of a leg above, an OUT is an IN, or the two payload types are the same: give each its own",
            Form::Links =>
                b"the SSRC is that of a leg or the mixer above, the IN is that of a leg or the operator above, the OUT is that of a leg above, or the two payload types are the same: give each its own",
        },
        _ => b"a leg above has this SSRC: give the mixer its own",
    }
}

/// There are too many legs.
fn many_sentence(form: Form) -> &'static [u8]
    ensures { result.now ≡ many_sentence form }
{
    match form {
        Form::Files => b"a conference of recordings has at most 64 legs",
        Form::Links => b"a conference of links has at most 16 legs",
    }
}

/// What is wrong with a line of a conference of this form that begins with this word.
pub(crate) fn conference_sentence(form: Form, word: LineWord, kind: ConfKind) -> &'static [u8]
    ensures { result.now ≡ conference_sentence form word kind }
{
    match kind {
        ConfKind::NotText => b"the line is not UTF-8: save the file as UTF-8",
        ConfKind::Word => word_sentence(form, word),
        ConfKind::Count => count_sentence(word),
        ConfKind::Name => name_sentence(word),
        ConfKind::Number => number_sentence(form, word),
        ConfKind::Many => many_sentence(form),
        ConfKind::PlanMany => b"a conference has at most 4096 lines lose, delay and twice",
        ConfKind::Twice => twice_sentence(word),
        ConfKind::Clash => clash_sentence(form, word),
        ConfKind::Few =>
            b"the line mixer or a leg is missing: a conference has one mixer, and two legs at least",
        ConfKind::Crowd =>
            b"at some moment more than 16 legs stay: give legs stays, so that one goes before another comes",
        ConfKind::Large =>
            b"a conference has at most 262144 octets: leave out comments, or lines lose, delay and twice",
        ConfKind::Order | ConfKind::Escape | ConfKind::Long | ConfKind::Full => b"",
    }
}

/// What is wrong where the file begins with a byte order mark.
pub(crate) const MARK_SENTENCE: &[u8] =
    b"the file begins with a byte order mark: save it as UTF-8 without one";

/// What a conference of recordings is that is right for `cascade`.
pub(crate) const CASCADE_NAME: &[u8] = b"conference of recordings, for cascade";

/// What is wrong with a leg behind another mixer.
pub(crate) fn trunk_sentence() -> &'static [u8]
    ensures { result.now ≡ trunk_sentence }
{
    b"the recording of another mixer has the payload types 98 and 100: leave them out of the line, or name another IN than trunk"
}

/// What is wrong with the recording of a leg.
pub(crate) fn input_dump_sentence(kind: DumpKind) -> &'static [u8]
    ensures { result.now ≡ input_dump_sentence kind }
{
    match kind {
        DumpKind::TooLarge =>
            b"an IN has at most 4194304 octets, and at most 1048576 where the conference has more than 16 legs: export the call in parts",
        other => dump_sentence(other),
    }
}

/// What is wrong with an IN of this form.
pub(crate) fn input_sentence(form: FileForm) -> &'static [u8]
    ensures { result.now ≡ input_sentence form }
{
    match form {
        FileForm::Gzip | FileForm::Pcap | FileForm::PcapNg | FileForm::TooLarge => {
            form_sentence(form)
        }
        _ =>
            b"an IN is a recording, which begins with #!rtpplay1.0: send makes one of a script, and relay one of frames",
    }
}

/// What is wrong with an IN that has no packets of its leg.
pub(crate) const STREAM_SENTENCE: &[u8] =
    b"no packet of the IN has the SSRC of the leg and one of its payload types: correct the line, or name another IN; list prints what it has";

/// What is wrong with a port that can't be had.
pub(crate) fn port_sentence(fault: PortFault) -> &'static [u8]
    ensures { result.now ≡ port_sentence fault }
{
    match fault {
        PortFault::Taken =>
            b"another program has the port, or another call: end it, or name another port",
        PortFault::NoRight =>
            b"whoever runs the program may not have this port: name one from 1024 on",
        PortFault::NoAddress =>
            b"OUT is 127.0.0.1, another address of 127.0.0.0/8, or [::1], with a colon and a port from 1 to 65535 behind it: no name, and no other machine",
        PortFault::ManyFiles =>
            b"as many files are open as may be, and each leg takes three: raise the limit (ulimit -n), or end what has them",
        PortFault::Other => b"the system does not give the port: try again, or name another port",
    }
}
