//! Runs of plain characters: those of printable ASCII, which erase nothing and end no line.
ghost use Rattle.std.specs.Prelude.{◌≤◌, length, take, All};
ghost use Rattle.std.specs.Bool.{OnTrue};
ghost use Rattle.t140_text.specs.Screens.{IsPlain};

/// How many octets are tested at once.
const STEP: usize = 32;

/// Whether this is a printable character of ASCII.
fn is_plain(octet: u8) -> bool
    ensures { OnTrue result (IsPlain octet) }
{
    b' ' <= octet && octet <= b'~'
}

/// Whether all of these are plain. No octet ends the loop, so that the compiler tests many at a time.
fn are_plain(octets: &[u8]) -> bool
    ensures { OnTrue result (All IsPlain octets.now) }
{
    let mut plain = true;
    for octet in octets {
        plain &= is_plain(*octet);
    }
    plain
}

/// How many plain octets stand at the front, by whole steps.
fn steps_len(octets: &[u8]) -> usize
    ensures fits { result ≤ length octets.now }
    ensures plain { All IsPlain (take result octets.now) }
{
    let mut len = 0;
    while octets.len() - len >= STEP && are_plain(&octets[len..len + STEP]) {
        len += STEP;
    }
    len
}

/// How many plain octets stand at the front.
pub(crate) fn plain_len(octets: &[u8]) -> usize
    ensures fits { result ≤ length octets.now }
    ensures plain { All IsPlain (take result octets.now) }
{
    let mut len = steps_len(octets);
    while len < octets.len() && is_plain(octets[len]) {
        len += 1;
    }
    len
}
