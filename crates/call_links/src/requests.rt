//! What an operator asks for.

/// What an operator asks for.
#[derive(Clone, Copy, Debug, PartialEq, Eq)]
pub(crate) enum Request {
    /// To be told how the call stands.
    State,
    /// That the call ends.
    Stop,
}

/// Whether two texts of one length are the same. It looks at each octet, so how long it takes does not tell where they differ.
fn is_same(a: &[u8], b: &[u8]) -> bool {
    let mut differing = 0;
    for (left, right) in a.iter().zip(b) {
        differing |= *left ^ *right;
    }
    differing == 0
}

/// What follows a word and a space, where the octets begin with them.
fn after_word<'a>(word: &[u8], octets: &'a [u8]) -> Option<&'a [u8]> {
    if octets.len() <= word.len() {
        return None;
    }
    let (front, rest) = octets.split_at(word.len());
    if !is_same(word, front) {
        return None;
    }
    match rest {
        [b' ', asked @ ..] => Some(asked),
        _ => None,
    }
}

/// What a datagram asks for: one that is this word, a space and what is asked for, and nothing else. The word is compared in a time
/// that does not tell how much of it is right.
pub(crate) fn request_of(word: &[u8], octets: &[u8]) -> Option<Request> {
    match after_word(word, octets)? {
        b"state" => Some(Request::State),
        b"stop" => Some(Request::Stop),
        _ => None,
    }
}
