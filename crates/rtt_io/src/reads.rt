//! How a source in memory answers one read.
ghost use Rattle.std.specs.Prelude.{◌≡◌, ◌≤◌, ◌<◌, [], length, take, min};

/// Copies octets of `rest` to the front of `buf`: as many as there are, as fit, and at most `most`. Answers how many.
pub(crate) fn hand_out(rest: &[u8], buf: &mut [u8], most: usize) -> usize
    ensures number { result ≡ min (min (length rest.now) (length buf.old)) most }
    ensures copied { take result buf.new ≡ take result rest.now }
{
    let number = rest.len().min(buf.len()).min(most);
    buf[..number].copy_from_slice(&rest[..number]);
    number
}
