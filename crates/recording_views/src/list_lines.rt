//! A line of print, built in place.
ghost use Rattle.std.specs.Prelude.{◌≡◌, ◌+◌, ◌≤◌, [], ◌++◌, length, drop, decimal};

use itoa::write_digits;
use std::marker::Model;

/// Writes a text from its end to its front, so that it ends at `end`, and returns where it starts. It goes octet by
/// octet: most texts are a few octets that the compiler knows, so each becomes a store or two.
fn write_text(text: &[u8], octets: &mut [u8], end: usize) -> usize
    requires room { length text.now ≤ end }
    requires within { end ≤ length octets.old }
    ensures start { result + length text.now ≡ end }
    ensures written { drop result octets.new ≡ text.now ++ drop end octets.old }
{
    let mut start = end;
    for octet in text.iter().rev() {
        start -= 1;
        octets[start] = *octet;
    }
    start
}

/// A line of at most 256 octets (126 are the most that one has), written from its end to its front, as the digits of a number come.
#[derive(Drop)]
pub(crate) struct PrintLine {
    octets: [u8; 256],
    // where what was written starts
    start: usize,
}

impl Model for PrintLine {
    ghost use Rattle.std.specs.Prelude.{ℕ, List, ◌≤◌, drop};

    ghost Value = { List ℕ };

    ghost view = { λ l. drop l.start l.octets };

    ghost invariant = { λ l. l.start ≤ 256 };
}

impl PrintLine {
    pub(crate) fn new() -> PrintLine
        ensures { result ≡ [] }
    {
        PrintLine {
            octets: [0; 256],
            start: 256,
        }
    }

    pub(crate) fn clear(&mut self)
        ensures { self.new ≡ [] }
    {
        self.start = 256;
    }

    pub(crate) fn as_slice(&self) -> &[u8]
        ensures { result.now ≡ self.now }
    {
        &self.octets[self.start..]
    }

    /// Writes a text in front of the line.
    pub(crate) fn prepend(&mut self, text: &[u8])
        requires { length text.now + length self.old ≤ 256 }
        ensures { self.new ≡ text.now ++ self.old }
    {
        self.start = write_text(text, &mut self.octets, self.start);
    }

    /// Writes a number in front of the line, in at most ten digits.
    pub(crate) fn prepend_number(&mut self, number: u32)
        requires { length self.old ≤ 246 }
        ensures line { self.new ≡ decimal number ++ self.old }
        ensures fits { length self.new ≤ 10 + length self.old }
    {
        self.start = write_digits(u64::from(number), &mut self.octets, self.start);
    }
}
