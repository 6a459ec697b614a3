//! The lines that tell an operator how a call stands.
use crate::seats::Counts;
use itoa::Buffer;
use rtt_base::{Full, Name, Packet};
use std::sync::atomic::Ordering;

/// Appends a word and a number behind it.
fn append_number(word: &[u8], number: u64, lines: &mut Packet) -> Result<(), Full> {
    let mut digits = Buffer::new();
    lines.append(word)?;
    lines.append(digits.format(number).as_bytes())
}

/// Appends how many turns of how many were made.
pub(crate) fn append_turns(made: u64, turns: u64, lines: &mut Packet) -> Result<(), Full> {
    append_number(b"turn ", made, lines)?;
    append_number(b" of ", turns, lines)?;
    lines.append(b"\n")
}

/// Appends how a leg stands at this moment (milliseconds).
pub(crate) fn append_leg(
    name: &Name,
    counts: &Counts,
    now: u64,
    lines: &mut Packet,
) -> Result<(), Full> {
    let heard = counts.heard.load(Ordering::SeqCst);
    lines.append(name.as_slice())?;
    append_number(
        b" datagrams ",
        counts.datagrams.load(Ordering::SeqCst),
        lines,
    )?;
    append_number(b" text ", counts.texts.load(Ordering::SeqCst), lines)?;
    append_number(b" last ", now.saturating_sub(heard), lines)?;
    let left = counts.left.load(Ordering::SeqCst);
    lines.append(if left { b" left\n" } else { b" here\n" })
}
