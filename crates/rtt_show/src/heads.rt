//! The head of a recording, which says when it began.
ghost use Rattle.std.specs.Prelude.{◌≡◌, ◌<◌, ◌≤◌, ◌^◌, ◌++◌, length, min, take, drop, None, Some, MatchOption, OnOk, IfOk, IfSome};
ghost use Rattle.std.specs.Int.{w32, from_be_bytes};
ghost use Rattle.wire_spec.specs.Dump.{past_line};
ghost use Rattle.report_spec.specs.Times.{start_of};
ghost use Rattle.rtt_show.specs.Openings.{behind_line};

use rtt_base::Failed;
use rtt_io::Source;

/// The octets of the head behind the line.
const HEAD: usize = 16;

/// A recording whose line and head were looked at. What was read of it is given again.
#[derive(Drop)]
pub struct HeadReader<S> {
    // the longest line, of 128 octets, and the head
    pub(crate) front: [u8; 144],
    // how much of the front was read, and how much was given again
    pub(crate) size: usize,
    pub(crate) given: usize,
    pub(crate) source: S,
    ghost ordered: { given ≤ size },
    ghost within: { size ≤ 144 },
}

/// A number of four octets.
fn number_of(octets: &[u8]) -> u64
    requires { 4 ≤ length octets.now }
    ensures number { result ≡ from_be_bytes w32 octets.now }
    ensures fits { result < 2 ^ 32 }
{
    let Some((four, _)) = octets.split_first_chunk() else {
        unreachable!();
    };
    u64::from(u32::from_be_bytes(*four))
}

/// What follows the first line feed among so many octets.
fn past_line(most: usize, octets: &[u8]) -> Option<&[u8]>
    ensures { MatchOption result (past_line most octets.now ≡ None) (λ rest. past_line most octets.now ≡ Some rest.now) }
{
    if most == 0 {
        return None;
    }
    match octets {
        [first, rest @ ..] => {
            if *first == b'\n' {
                return Some(rest);
            }
            past_line(most - 1, rest)
        }
        [] => None,
    }
}

/// What follows the line, if the front begins with one.
fn behind_line(front: &[u8]) -> Option<&[u8]>
    ensures { MatchOption result (behind_line front.now ≡ None) (λ rest. behind_line front.now ≡ Some rest.now) }
{
    if front.starts_with(b"#!rtpplay1.0 ") {
        past_line(128, front)
    } else {
        None
    }
}

/// When a recording with this front began, in milliseconds since 1970, if its line and head are there.
#[tactic(auto, unfolding(report_spec::specs::Times::start_of))]
fn start_in(front: &[u8]) -> Option<u64>
    ensures start { result ≡ start_of front.now }
    ensures early { IfSome result (λ start. start < 2 ^ 48) }
{
    let head = behind_line(front)?;
    if head.len() < HEAD {
        return None;
    }
    Some(1000 * number_of(head) + number_of(&head[4..]) / 1000)
}

impl<S: Source> HeadReader<S> {
    ghost use Rattle.rtpdump_io.specs.Input.{CountsFaults};
    ghost use Rattle.rtt_show.specs.Heads.{LooksAt, held, left_of};

    /// Looks at the first octets of a source, and tells when the recording began, in milliseconds since 1970, if its line and its
    /// head are there.
    pub fn open(source: S) -> (HeadReader<S>, Result<Option<u64>, Failed>)
        ensures counts { CountsFaults S.faults S.name source result.0.source result.1 }
        ensures left { S.tells → OnOk result.1 (left_of S.left result.0 ≡ S.left source) }
        ensures start { S.tells → IfOk result.1 (λ start. start ≡ start_of (S.left source)) }
        ensures early { IfOk result.1 (λ start. IfSome start (λ start. start < 2 ^ 48)) }
    {
        let mut opened = HeadReader {
            front: [0; 144],
            size: 0,
            given: 0,
            source,
        };
        match opened.look() {
            Ok(()) => {
                let start = start_in(&opened.front[..opened.size]);
                (opened, Ok(start))
            }
            Err(failed) => (opened, Err(failed)),
        }
    }

    /// Reads as much of the front as there is.
    fn look(&mut self) -> Result<(), Failed>
        requires none { self.old.size ≡ 0 }
        ensures counts { CountsFaults S.faults S.name self.old.source self.new.source result }
        ensures looks { S.tells → OnOk result (LooksAt S.left self.old self.new) }
        ensures given { self.new.given ≡ self.old.given }
    {
        while self.size < 144 {
            let number = self.source.read(&mut self.front[self.size..])?;
            if number == 0 {
                return Ok(());
            }
            self.size += number;
        }
        Ok(())
    }

    /// The source, as far as it was read.
    pub fn into_source(self) -> S
        ensures { result ≡ self.source }
    {
        let HeadReader { source, .. } = self;
        source
    }

    // What was read and is still to be given.
    fn held(&self) -> &[u8]
        ensures { result.now ≡ held self.now }
    {
        &self.front[self.given..self.size]
    }

    // Passes over so many octets of it.
    fn advance(&mut self, number: usize)
        requires { number ≤ length (held self.old) }
        ensures source { self.new.source ≡ self.old.source }
        ensures held { held self.new ≡ drop number (held self.old) }
    {
        self.given += number;
    }

    // Moves octets of it to the front of `buf`, as many as there are and fit, and answers how many.
    fn hand_out(&mut self, buf: &mut [u8]) -> usize
        ensures number { result ≡ min (length (held self.old)) (length buf.old) }
        ensures size { length buf.new ≡ length buf.old }
        ensures source { self.new.source ≡ self.old.source }
        ensures given { held self.old ≡ take result buf.new ++ held self.new }
    {
        let held = self.held();
        let number = held.len().min(buf.len());
        buf[..number].copy_from_slice(&held[..number]);
        self.advance(number);
        number
    }
}

impl<S: Source> Source for HeadReader<S> {
    ghost use Rattle.rtt_show.specs.Heads.{left_of};

    ghost tells = { S.tells };

    ghost left = { left_of S.left };

    ghost faults = { λ s. S.faults s.source };

    ghost name = { λ s. S.name s.source };

    fn read(&mut self, buf: &mut [u8]) -> Result<usize, Failed> {
        if self.held().is_empty() {
            return self.source.read(buf);
        }
        Ok(self.hand_out(buf))
    }
}
