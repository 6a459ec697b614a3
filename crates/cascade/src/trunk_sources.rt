//! What is read where recordings of sources stand beside what a world holds.
ghost use Rattle.std.specs.Prelude.{◌≡◌, ◌≤◌, ◌<◌, ◌++◌, [], length, take, min};

use rtt_base::Failed;
use rtt_io::Source;

/// Copies octets of `rest` to the front of `buf`: as many as there are, and fit. Answers how many.
fn hand_out(rest: &[u8], buf: &mut [u8]) -> usize
    ensures number { result ≡ min (length rest.now) (length buf.old) }
    ensures copied { take result buf.new ≡ take result rest.now }
{
    let number = rest.len().min(buf.len());
    buf[..number].copy_from_slice(&rest[..number]);
    number
}

/// What is still to be read of the recording of a source.
#[derive(Drop)]
pub struct SplitSource<'a> {
    rest: &'a [u8],
}

impl<'a> SplitSource<'a> {
    /// All of this recording.
    pub fn new(recording: &'a [u8]) -> SplitSource<'a>
        ensures { result.rest.now ≡ recording.now }
    {
        SplitSource { rest: recording }
    }

    /// Reads the next octets. It never fails.
    fn take(&mut self, buf: &mut [u8]) -> usize
        ensures fits { result ≤ length buf.new }
        ensures given { self.old.rest.now ≡ take result buf.new ++ self.new.rest.now }
        ensures ended { 0 < length buf.old → result ≡ 0 → self.old.rest.now ≡ [] }
    {
        let number = hand_out(self.rest, buf);
        self.rest = &self.rest[number..];
        number
    }
}

/// The recording of a source, or a source of a world.
#[derive(Drop)]
pub enum TrunkSource<'a, S> {
    /// No reading of it fails.
    Split(SplitSource<'a>),
    Below(S),
}

impl<'a, S: Source> Source for TrunkSource<'a, S> {
    ghost use Rattle.cascade.specs.TrunkSources.{left_in, faults_in, name_in};

    ghost tells = { S.tells };

    ghost left = { left_in S.left };

    ghost faults = { faults_in S.faults };

    ghost name = { name_in S.name };

    fn read(&mut self, buf: &mut [u8]) -> Result<usize, Failed> {
        match self {
            TrunkSource::Split(split) => Ok(split.take(buf)),
            TrunkSource::Below(below) => below.read(buf),
        }
    }
}
