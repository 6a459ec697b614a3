//! Where a text is cut.
ghost use Rattle.std.specs.Prelude.{◌≡◌, ◌<◌, ◌≤◌, length};
ghost use Rattle.stream_spec.specs.Typed.{is_end, last_end};
ghost use Rattle.mixer_spec.specs.Pieces.{cut_at};

/// Whether a character ends before this place: the octet there does not continue one.
fn ends_at(text: &[u8], place: usize) -> bool
    ensures { result ≡ is_end text.now place }
{
    match text.get(place) {
        None => true,
        Some(&octet) => octet < 128 || octet >= 192,
    }
}

/// The greatest of the places up to this one at which a character ends.
fn last_end(text: &[u8], most: usize) -> usize
    ensures value { result ≡ last_end text.now most }
    ensures within { result ≤ most }
{
    let mut place = most;
    while place > 0 && !ends_at(text, place) {
        place -= 1;
    }
    place
}

/// Where a text of more than `most` octets is cut.
pub(crate) fn cut_at(text: &[u8], most: usize) -> usize
    requires { 0 < most }
    ensures value { result ≡ cut_at most text.now }
    ensures some { 0 < result }
    ensures within { result ≤ most }
{
    let end = last_end(text, most);
    if end == 0 {
        return most;
    }
    end
}
