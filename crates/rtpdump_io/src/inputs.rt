//! Octets that are read block by block.
ghost use Rattle.std.specs.Prelude.{◌≡◌, ℕ, ◌<◌, ◌≤◌, ◌+◌, ◌-◌, [], ◌++◌, length, take, drop, min, Ok, None, true, false, IfOk, option_to_list};
ghost use Rattle.rtt_base.specs.declared.limits.TheConstants.{MOST_PACKET_OCTETS};

use rtt_base::{Failed, Packet};
use rtt_io::Source;

/// A source, and the block that was read last.
#[derive(Drop)]
pub(crate) struct Input<S> {
    pub source: S,
    pub block: [u8; 4096],
    // the part of the block that is still to be handed out
    pub start: usize,
    pub end: usize,
    ghost ordered: { start ≤ end },
    ghost within: { end ≤ 4096 },
}

impl<S: Source> Input<S> {
    ghost use Rattle.rtpdump_io.specs.Input.{held, unread, CountsFaults, IsAtEnd, HandsOut, PassesOver};

    pub fn new(source: S) -> Input<S>
        ensures source { result.source ≡ source }
        ensures unread { unread S.left result ≡ S.left source }
    {
        Input {
            source,
            block: [0; 4096],
            start: 0,
            end: 0,
        }
    }

    pub fn into_source(self) -> S
        ensures { result ≡ self.source }
    {
        let Input {
            source,
            block: _,
            start: _,
            end: _,
        } = self;
        source
    }

    /// The rest of the block.
    pub fn held(&self) -> &[u8]
        ensures { result.now ≡ held self.now }
    {
        &self.block[self.start..self.end]
    }

    // Passes over so many octets of the block.
    fn advance(&mut self, number: usize)
        requires { number ≤ length (held self.old) }
        ensures source { self.new.source ≡ self.old.source }
        ensures held { held self.new ≡ drop number (held self.old) }
    {
        self.start += number;
    }

    // Reads a block where none is left. The octets that stand in the block are none only at the end.
    fn fill(&mut self) -> Result<(), Failed>
        ensures counts { CountsFaults S.faults S.name self.old.source self.new.source result }
        ensures unread { S.tells → unread S.left self.new ≡ unread S.left self.old }
        ensures ended { S.tells → result ≡ Ok tt → held self.new ≡ [] → IsAtEnd S.left self.old }
    {
        if self.start == self.end {
            self.start = 0;
            self.end = 0;
            self.end = self.source.read(&mut self.block)?;
        }
        Ok(())
    }

    // Moves octets of the block to the front of `buf`, as many as there are and fit, and answers how many.
    fn hand_out(&mut self, buf: &mut [u8]) -> usize
        ensures number { result ≡ min (length (held self.old)) (length buf.old) }
        ensures size { length buf.new ≡ length buf.old }
        ensures source { self.new.source ≡ self.old.source }
        ensures given { held self.old ≡ take result buf.new ++ held self.new }
    {
        let held = self.held();
        let number = held.len().min(buf.len());
        buf[..number].copy_from_slice(&held[..number]);
        self.advance(number);
        number
    }

    /// The next octet, or none at the end.
    pub fn octet(&mut self) -> Result<Option<u8>, Failed>
        ensures counts { CountsFaults S.faults S.name self.old.source self.new.source result }
        ensures given { S.tells → IfOk result (λ octet. HandsOut S.left self.old self.new (option_to_list octet)) }
        ensures ended { S.tells → result ≡ Ok None → IsAtEnd S.left self.new }
    {
        self.fill()?;
        let Some(octet) = self.held().first().copied() else {
            return Ok(None);
        };
        self.advance(1);
        Ok(Some(octet))
    }

    /// Fills `buf`, as far as there are octets, and answers with how many. Most calls find all of them in the block.
    #[inline(always)]
    pub fn read_full(&mut self, buf: &mut [u8]) -> Result<usize, Failed>
        ensures fits { IfOk result (λ number. number ≤ length buf.new) }
        ensures counts { CountsFaults S.faults S.name self.old.source self.new.source result }
        ensures given { S.tells → IfOk result (λ number. HandsOut S.left self.old self.new (take number buf.new)) }
        ensures ended { S.tells → IfOk result (λ number. number < length buf.new → IsAtEnd S.left self.new) }
    {
        if self.held().len() < buf.len() {
            return self.read_parts(buf);
        }
        Ok(self.hand_out(buf))
    }

    // Fills `buf` part by part, from as many blocks as it takes.
    #[inline(never)]
    fn read_parts(&mut self, buf: &mut [u8]) -> Result<usize, Failed>
        ensures fits { IfOk result (λ number. number ≤ length buf.new) }
        ensures counts { CountsFaults S.faults S.name self.old.source self.new.source result }
        ensures given { S.tells → IfOk result (λ number. HandsOut S.left self.old self.new (take number buf.new)) }
        ensures ended { S.tells → IfOk result (λ number. number < length buf.new → IsAtEnd S.left self.new) }
    {
        let mut done = 0;
        while done < buf.len() {
            self.fill()?;
            let number = self.hand_out(&mut buf[done..]);
            if number == 0 {
                return Ok(done);
            }
            done += number;
        }
        Ok(done)
    }

    /// Passes over so many octets, and answers whether all of them were there.
    pub fn pass(&mut self, count: usize) -> Result<bool, Failed>
        ensures counts { CountsFaults S.faults S.name self.old.source self.new.source result }
        ensures there { S.tells → result ≡ Ok true → PassesOver S.left self.old self.new count }
        ensures missing { S.tells → result ≡ Ok false → length (unread S.left self.old) < count }
    {
        let mut done = 0;
        while done < count {
            self.fill()?;
            let number = self.held().len().min(count - done);
            if number == 0 {
                return Ok(false);
            }
            self.advance(number);
            done += number;
        }
        Ok(true)
    }

    /// Copies so many octets behind those of `out`, and answers whether all of them were there. Most calls find all of
    /// them in the block.
    pub fn copy(&mut self, count: usize, out: &mut Packet) -> Result<bool, Failed>
        requires { length out.old + count ≤ MOST_PACKET_OCTETS }
        ensures counts { CountsFaults S.faults S.name self.old.source self.new.source result }
        ensures there { S.tells → result ≡ Ok true → PassesOver S.left self.old self.new count }
        ensures copied { S.tells → result ≡ Ok true → out.new ≡ out.old ++ take count (unread S.left self.old) }
        ensures missing { S.tells → result ≡ Ok false → length (unread S.left self.old) < count }
    {
        if self.held().len() < count {
            return self.copy_parts(count, out);
        }
        append(out, &self.held()[..count]);
        self.advance(count);
        Ok(true)
    }

    /// Passes over so many octets of the block, and has those behind the first eight of them in place of what was in `out`.
    #[inline(always)]
    pub fn take_body(&mut self, size: usize, out: &mut Packet)
        requires head { 8 ≤ size }
        requires there { size ≤ length (held self.old) }
        requires fits { size - 8 ≤ MOST_PACKET_OCTETS }
        ensures source { self.new.source ≡ self.old.source }
        ensures held { held self.new ≡ drop size (held self.old) }
        ensures body { out.new ≡ take (size - 8) (drop 8 (held self.old)) }
    {
        out.clear();
        append(out, &self.held()[8..size]);
        self.advance(size);
    }

    // Copies octets part by part, from as many blocks as it takes.
    #[inline(never)]
    fn copy_parts(&mut self, count: usize, out: &mut Packet) -> Result<bool, Failed>
        requires { length out.old + count ≤ MOST_PACKET_OCTETS }
        ensures counts { CountsFaults S.faults S.name self.old.source self.new.source result }
        ensures there { S.tells → result ≡ Ok true → PassesOver S.left self.old self.new count }
        ensures copied { S.tells → result ≡ Ok true → out.new ≡ out.old ++ take count (unread S.left self.old) }
        ensures missing { S.tells → result ≡ Ok false → length (unread S.left self.old) < count }
    {
        let mut done = 0;
        while done < count {
            self.fill()?;
            let number = self.held().len().min(count - done);
            if number == 0 {
                return Ok(false);
            }
            append(out, &self.held()[..number]);
            self.advance(number);
            done += number;
        }
        Ok(true)
    }
}

// Appends octets to a packet that has room for them.
fn append(out: &mut Packet, octets: &[u8])
    requires { length out.old + length octets.now ≤ MOST_PACKET_OCTETS }
    ensures { out.new ≡ out.old ++ octets.now }
{
    let appended = out.append(octets);
    prove!(appended.is_ok());
}
