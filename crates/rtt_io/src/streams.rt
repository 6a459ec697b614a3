//! Reading and writing of real streams.
ghost use Rattle.std.specs.Prelude.{◌≡◌, ◌≤◌, ◌<◌, length, take, IfOk, OnOk, OnErr, Ok};
ghost use Rattle.std.specs.Io.KnownBytes.{Appends, Consumes, Keeps, IsAtEnd};
ghost use Rattle.rtt_io.specs.Fronts.{AppendsFront};

use rtt_base::Failed;
use std::fs::File;
use std::io::{ErrorKind, Read, Write};

/// Reads once, and again where the system broke the read off.
pub(crate) fn read_once<R: Read>(from: &mut R, buf: &mut [u8]) -> Result<usize, Failed>
    ensures fits { IfOk result (λ n. n ≤ length buf.new) }
    ensures given { IfOk result (λ n. Consumes (R.remaining from.old) (R.remaining from.new) (take n buf.new)) }
    ensures ended { result ≡ Ok 0 → 0 < length buf.new → IsAtEnd (R.remaining from.new) }
    ensures kept { OnErr result (Keeps (R.remaining from.old) (R.remaining from.new)) }
{
    for _ in 0..u64::MAX {
        match from.read(buf) {
            Ok(number) => return Ok(number),
            Err(error) if error.kind() == ErrorKind::Interrupted => {}
            Err(_) => return Err(Failed),
        }
    }
    Err(Failed)
}

/// Writes all octets, piece by piece. A write that takes nothing of a piece that is not empty is a fault.
pub(crate) fn write_whole<W: Write>(to: &mut W, octets: &[u8]) -> Result<(), Failed>
    ensures whole { OnOk result (Appends (W.contents to.old) (W.contents to.new) octets.now) }
    ensures partly { OnErr result (AppendsFront (W.contents to.old) (W.contents to.new) octets.now) }
{
    let mut done = 0;
    while done < octets.len() {
        let number = write_once(to, &octets[done..])?;
        if number == 0 {
            return Err(Failed);
        }
        done += number;
    }
    Ok(())
}

/// A writer whose octets are stored behind it.
pub trait StoredWriter: Write {
    /// Waits until what was written is stored. What stores nothing, as a pipe, answers `Ok`.
    fn store(&self) -> Result<(), Failed>;
}

impl StoredWriter for File {
    fn store(&self) -> Result<(), Failed> {
        match self.sync_data() {
            Ok(()) => Ok(()),
            // The system's answer for pipes and terminals.
            Err(error) if error.kind() == ErrorKind::InvalidInput => Ok(()),
            Err(_) => Err(Failed),
        }
    }
}

impl StoredWriter for Vec<u8> {
    fn store(&self) -> Result<(), Failed> {
        Ok(())
    }
}

/// Writes all octets, and waits until they are stored.
pub(crate) fn write_stored<W: StoredWriter>(to: &mut W, octets: &[u8]) -> Result<(), Failed>
    ensures whole { OnOk result (Appends (W.contents to.old) (W.contents to.new) octets.now) }
    ensures partly { OnErr result (AppendsFront (W.contents to.old) (W.contents to.new) octets.now) }
{
    match write_whole(to, octets) {
        Ok(()) => to.store(),
        Err(failed) => Err(failed),
    }
}

// Writes once, and again where the system broke the write off.
fn write_once<W: Write>(to: &mut W, piece: &[u8]) -> Result<usize, Failed>
    ensures fits { IfOk result (λ n. n ≤ length piece.now) }
    ensures appended { IfOk result (λ n. Appends (W.contents to.old) (W.contents to.new) (take n piece.now)) }
    ensures kept { OnErr result (Keeps (W.contents to.old) (W.contents to.new)) }
{
    for _ in 0..u64::MAX {
        match to.write(piece) {
            Ok(number) => return Ok(number),
            Err(error) if error.kind() == ErrorKind::Interrupted => {}
            Err(_) => return Err(Failed),
        }
    }
    Err(Failed)
}
