//! What is printed, and what is told of a fault, and its status.
ghost use Rattle.std.specs.Prelude.{◌≡◌, ◌++◌, ◌≤◌, decimal, Ok, OnErr, IfErr};
ghost use Rattle.std.specs.List.{concat};
ghost use Rattle.rtt_io.specs.Counts.{Rose};
ghost use Rattle.command_spec.specs.Messages.{refusal_status, fault_status, status_of, refusal_message, trouble, byte_message, line_message};
ghost use Rattle.report_spec.specs.Told.{told_name};
ghost use Rattle.rtt_words.specs.Told.{fault_message, message_of};
ghost use Rattle.rtt_top.specs.Faults.{message_in};
ghost use Rattle.rtt_top.specs.Sinks.{Wrote, WrotePartly, TookFront, TookIfCalm, place_message};

use crate::name_texts::write_name;
use crate::names::ending_name;
use command_spec::{Fault, Refusal, dump_kind_name};
use file_spec::{ConfKind, FrameKind};
use itoa::Buffer;
use rtt_base::{Bytes, Failed};
use rtt_check::{conf_kind_name, frame_kind_name};
use rtt_io::Sink;
use rtt_mix::Piece;
use rtt_words::{Topic, help_text};

/// The program's status for a refusal.
fn refusal_status(refusal: Refusal) -> u8
    ensures { result ≡ refusal_status refusal }
{
    match refusal {
        Refusal::AtLine { .. } | Refusal::AtTrunk { .. } => 5,
        Refusal::AtByte { .. } | Refusal::AtFrame { .. } => 6,
        Refusal::AfterTurns { .. } => 9,
    }
}

/// The program's status for a fault.
pub fn status(fault: Fault) -> u8
    ensures { result ≡ fault_status fault }
{
    match fault {
        Fault::WrongWords => 2,
        Fault::CannotOpen { .. } => 3,
        Fault::CannotRead { .. } => 4,
        Fault::Refused { refusal, .. } => refusal_status(refusal),
        Fault::CannotPrint | Fault::CannotWrite { .. } => 7,
        Fault::LinkFailed { .. } => 8,
        Fault::NoMemory => 70,
    }
}

/// Writes two pieces, one after the other.
#[tactic(auto, using(crate::proofs::Counts::rose_since, crate::proofs::Counts::rose_before))]
fn write_two<E: Sink>(err: &mut E, first: &[u8], second: &[u8]) -> Result<(), Failed>
    ensures never_falls { E.faults err.old ≤ E.faults err.new }
    ensures failed { OnErr result (Rose (E.faults err.old) (E.faults err.new)) }
    ensures written { Wrote E.Sink err.old err.new (first.now ++ second.now) result }
    ensures partly { WrotePartly E.Sink err.old err.new (first.now ++ second.now) result }
{
    err.write_all(first)?;
    err.write_all(second)
}

/// Writes what went wrong with a file or a leg.
#[tactic(auto, using(crate::proofs::Counts::rose_since, crate::proofs::Counts::rose_before))]
fn write_trouble<E: Sink>(err: &mut E, what: &[u8], name: &str) -> Result<(), Failed>
    ensures never_falls { E.faults err.old ≤ E.faults err.new }
    ensures failed { OnErr result (Rose (E.faults err.old) (E.faults err.new)) }
    ensures written { Wrote E.Sink err.old err.new (trouble what.now (told_name name.now)) result }
    ensures partly { WrotePartly E.Sink err.old err.new (trouble what.now (told_name name.now)) result }
{
    err.write_all(what)?;
    write_name(err, name)?;
    err.write_all(b"\n")
}

/// Writes where in a file of this name something is refused, and why.
#[tactic(auto, using(crate::proofs::Counts::rose_since, crate::proofs::Counts::rose_before))]
fn write_place<E: Sink>(
    err: &mut E,
    name: &str,
    unit: &[u8],
    number: &[u8],
    why: &[u8],
) -> Result<(), Failed>
    ensures never_falls { E.faults err.old ≤ E.faults err.new }
    ensures failed { OnErr result (Rose (E.faults err.old) (E.faults err.new)) }
    ensures written { Wrote E.Sink err.old err.new (place_message (told_name name.now) unit.now number.now why.now) result }
    ensures partly { WrotePartly E.Sink err.old err.new (place_message (told_name name.now) unit.now number.now why.now) result }
{
    write_name(err, name)?;
    err.write_all(unit)?;
    write_two(err, number, b": ")?;
    write_two(err, why, b"\n")
}

/// Writes at which byte a file is refused, and why.
fn write_byte<E: Sink>(err: &mut E, name: &str, byte: u64, why: &[u8]) -> Result<(), Failed>
    ensures never_falls { E.faults err.old ≤ E.faults err.new }
    ensures failed { OnErr result (Rose (E.faults err.old) (E.faults err.new)) }
    ensures written { Wrote E.Sink err.old err.new (byte_message (told_name name.now) byte why.now) result }
    ensures partly { WrotePartly E.Sink err.old err.new (byte_message (told_name name.now) byte why.now) result }
{
    let mut digits = Buffer::new();
    let number = digits.format(byte).as_bytes();
    write_place(err, name, b" byte ", number, why)
}

/// Writes which line of a file is refused, and why.
fn write_line<E: Sink>(err: &mut E, name: &str, line: u32, why: &[u8]) -> Result<(), Failed>
    ensures never_falls { E.faults err.old ≤ E.faults err.new }
    ensures failed { OnErr result (Rose (E.faults err.old) (E.faults err.new)) }
    ensures written { Wrote E.Sink err.old err.new (line_message (told_name name.now) line why.now) result }
    ensures partly { WrotePartly E.Sink err.old err.new (line_message (told_name name.now) line why.now) result }
{
    let mut digits = Buffer::new();
    let number = digits.format(line).as_bytes();
    write_place(err, name, b" line ", number, why)
}

/// Writes a number and what stands round it.
#[tactic(auto, using(crate::proofs::Counts::rose_since, crate::proofs::Counts::rose_before))]
fn write_counted<E: Sink>(
    err: &mut E,
    before: &[u8],
    count: u32,
    after: &[u8],
) -> Result<(), Failed>
    ensures never_falls { E.faults err.old ≤ E.faults err.new }
    ensures failed { OnErr result (Rose (E.faults err.old) (E.faults err.new)) }
    ensures written { Wrote E.Sink err.old err.new (before.now ++ (decimal count ++ after.now)) result }
    ensures partly { WrotePartly E.Sink err.old err.new (before.now ++ (decimal count ++ after.now)) result }
{
    let mut digits = Buffer::new();
    let number = digits.format(count).as_bytes();
    err.write_all(before)?;
    write_two(err, number, after)
}

/// Writes why what lies in a file of this name is refused.
fn write_refusal<E: Sink>(err: &mut E, name: &str, refusal: Refusal) -> Result<(), Failed>
    ensures never_falls { E.faults err.old ≤ E.faults err.new }
    ensures failed { OnErr result (Rose (E.faults err.old) (E.faults err.new)) }
    ensures written { Wrote E.Sink err.old err.new (refusal_message (told_name name.now) refusal) result }
    ensures partly { WrotePartly E.Sink err.old err.new (refusal_message (told_name name.now) refusal) result }
{
    match refusal {
        Refusal::AtByte { byte, kind } => write_byte(err, name, byte, dump_kind_name(kind)),
        Refusal::AtFrame { byte, kind } => write_byte(err, name, byte, frame_kind_name(kind)),
        Refusal::AtLine { line, kind } => write_line(err, name, line, conf_kind_name(kind)),
        Refusal::AtTrunk { line } => write_line(err, name, line, b"Trunk"),
        Refusal::AfterTurns { turns } => {
            write_counted(err, b"conference too long: ", turns, b" turns\n")
        }
    }
}

/// Writes what is told of a fault whose file or leg has this name.
fn write_message<E: Sink>(err: &mut E, name: &str, fault: Fault) -> Result<(), Failed>
    ensures never_falls { E.faults err.old ≤ E.faults err.new }
    ensures failed { OnErr result (Rose (E.faults err.old) (E.faults err.new)) }
    ensures written { Wrote E.Sink err.old err.new (fault_message (told_name name.now) fault) result }
    ensures partly { WrotePartly E.Sink err.old err.new (fault_message (told_name name.now) fault) result }
{
    match fault {
        Fault::WrongWords => err.write_all(help_text(Topic::Usage)),
        Fault::CannotOpen { .. } => write_trouble(err, b"cannot open ", name),
        Fault::CannotRead { .. } => write_trouble(err, b"cannot read ", name),
        Fault::Refused { refusal, .. } => write_refusal(err, name, refusal),
        Fault::CannotPrint => err.write_all(b"cannot write the output\n"),
        Fault::CannotWrite { .. } => write_trouble(err, b"cannot write ", name),
        Fault::LinkFailed { .. } => write_trouble(err, b"link fault at leg ", name),
        Fault::NoMemory => err.write_all(b"out of memory\n"),
    }
}

/// Tells of a fault in one line, or for wrong words in the lines of the usage text. A fault in telling it changes nothing.
pub fn tell<E: Sink>(err: &mut E, name: &str, fault: Fault)
    ensures told { E.tells → TookIfCalm E.Sink err.old err.new (fault_message (told_name name.now) fault) }
    ensures front { E.tells → TookFront E.Sink err.old err.new (fault_message (told_name name.now) fault) }
{
    let _ = write_message(err, name, fault);
}

/// Tells how a command ended, where the file or the leg that is told of has this name, and answers the status.
pub fn finish_with<E: Sink>(ending: Result<(), Fault>, name: &str, err: &mut E) -> u8
    ensures status { result ≡ status_of ending }
    ensures silent { ending ≡ Ok tt → E.took err.new ≡ E.took err.old }
    ensures front { E.tells → TookFront E.Sink err.old err.new (message_of name.now ending) }
    ensures told { E.tells → TookIfCalm E.Sink err.old err.new (message_of name.now ending) }
{
    match ending {
        Ok(()) => 0,
        Err(fault) => {
            tell(err, name, fault);
            status(fault)
        }
    }
}

/// Tells how a command ended whose one input and one output have these names, and answers the status.
pub fn finish<E: Sink>(ending: Result<(), Fault>, input: &str, output: &str, err: &mut E) -> u8
    ensures status { result ≡ status_of ending }
    ensures silent { ending ≡ Ok tt → E.took err.new ≡ E.took err.old }
    ensures front { E.tells → TookFront E.Sink err.old err.new (message_in input.now output.now ending) }
    ensures told { E.tells → TookIfCalm E.Sink err.old err.new (message_in input.now output.now ending) }
{
    let name = ending_name(ending, input, output);
    finish_with(ending, name, err)
}

/// Prints what a command made.
pub(crate) fn print<K: Sink>(octets: &[u8], out: &mut K) -> Result<(), Fault>
    ensures fault { IfErr result (λ fault. fault ≡ Fault.CannotPrint) }
    ensures cause { OnErr result (Rose (K.faults out.old) (K.faults out.new)) }
    ensures printed { Wrote K.Sink out.old out.new octets.now result }
    ensures partly { WrotePartly K.Sink out.old out.new octets.now result }
{
    match out.write_all(octets) {
        Ok(()) => Ok(()),
        Err(Failed) => Err(Fault::CannotPrint),
    }
}

/// Writes pieces, one behind the other.
fn write_pieces<K: Sink>(out: &mut K, pieces: &[Bytes]) -> Result<(), Failed>
    ensures never_falls { K.faults out.old ≤ K.faults out.new }
    ensures failed { OnErr result (Rose (K.faults out.old) (K.faults out.new)) }
    ensures written { Wrote K.Sink out.old out.new (concat pieces.now) result }
    ensures partly { WrotePartly K.Sink out.old out.new (concat pieces.now) result }
{
    for piece in pieces {
        out.write_all(piece.as_slice())?;
    }
    Ok(())
}

/// Prints what a command made in pieces, one behind the other.
pub(crate) fn print_all<K: Sink>(pieces: &[Bytes], out: &mut K) -> Result<(), Fault>
    ensures fault { IfErr result (λ fault. fault ≡ Fault.CannotPrint) }
    ensures cause { OnErr result (Rose (K.faults out.old) (K.faults out.new)) }
    ensures printed { Wrote K.Sink out.old out.new (concat pieces.now) result }
    ensures partly { WrotePartly K.Sink out.old out.new (concat pieces.now) result }
{
    match write_pieces(out, pieces) {
        Ok(()) => Ok(()),
        Err(Failed) => Err(Fault::CannotPrint),
    }
}

/// Writes pieces that several may hold, one behind the other.
fn write_views<K: Sink>(out: &mut K, pieces: &[Piece]) -> Result<(), Failed>
    ensures never_falls { K.faults out.old ≤ K.faults out.new }
    ensures failed { OnErr result (Rose (K.faults out.old) (K.faults out.new)) }
    ensures written { Wrote K.Sink out.old out.new (concat pieces.now) result }
    ensures partly { WrotePartly K.Sink out.old out.new (concat pieces.now) result }
{
    for piece in pieces {
        out.write_all(piece.as_slice())?;
    }
    Ok(())
}

/// Prints what is seen of a conference, piece by piece.
pub(crate) fn print_views<K: Sink>(pieces: &[Piece], out: &mut K) -> Result<(), Fault>
    ensures fault { IfErr result (λ fault. fault ≡ Fault.CannotPrint) }
    ensures cause { OnErr result (Rose (K.faults out.old) (K.faults out.new)) }
    ensures printed { Wrote K.Sink out.old out.new (concat pieces.now) result }
    ensures partly { WrotePartly K.Sink out.old out.new (concat pieces.now) result }
{
    match write_views(out, pieces) {
        Ok(()) => Ok(()),
        Err(Failed) => Err(Fault::CannotPrint),
    }
}
