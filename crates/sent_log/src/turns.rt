//! The turns at which something was sent.
ghost use Rattle.std.specs.Prelude.{◌≡◌, ◌-◌, ◌<◌, true, length, IfOk};
ghost use Rattle.sent_log.specs.Insides.{turn_at};
ghost use Rattle.sent_log.specs.Lists.{Grows};

use rtt_base::NoMemory;

/// A turn, which the entries of all that it sends share.
#[derive(Clone, Copy, Debug)]
pub struct Turn {
    /// The moment, in milliseconds.
    pub now: u32,
    /// The media time, in milliseconds.
    pub media: u64,
}

/// The number of the turn, which is appended where it is not the last one already. After `NoMemory` the turns before are
/// as they were.
pub fn note_turn(turns: &mut Vec<Turn>, turn: Turn) -> Result<u32, NoMemory>
    ensures grows { Grows turns.old.items turns.new.items }
    ensures within { IfOk result (λ number. number < length turns.new.items) }
    ensures is { IfOk result (λ number. turn_at turns.new.items number ≡ turn) }
{
    if is_last(turns, turn) {
        return last_number(turns.len());
    }
    turns.push(turn)?;
    last_number(turns.len())
}

/// Whether the turn is the last of these.
fn is_last(turns: &[Turn], turn: Turn) -> bool
    ensures some { result ≡ true → 0 < length turns.now }
    ensures last { result ≡ true → turn_at turns.now (length turns.now - 1) ≡ turn }
{
    match turns {
        [.., last] => last.now == turn.now && last.media == turn.media,
        [] => false,
    }
}

/// The number of the last of so many, counted from 0.
fn last_number(count: usize) -> Result<u32, NoMemory>
    requires { 0 < count }
    ensures { IfOk result (λ number. number ≡ count - 1) }
{
    match u32::try_from(count - 1) {
        Ok(number) => Ok(number),
        Err(_) => Err(NoMemory),
    }
}
