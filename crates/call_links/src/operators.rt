//! The port of an operator, and who is heard there.
use crate::Desk;

/// Where an operator's datagrams come and go.
pub trait OperatorPort: Drop {
    /// Puts the octets of the next datagram at the front of `room`, as many as fit, and answers how many; `None` where none is there.
    /// It does not wait.
    fn receive(&mut self, room: &mut [u8]) -> Option<usize>;

    /// Sends a datagram to whom the last one came from. Whether it arrives is not known, and the call does not wait for it.
    fn answer(&mut self, octets: &[u8]);
}

/// Who may ask of a call.
#[derive(Drop)]
pub enum Operator<P> {
    /// Nobody.
    Nobody,
    /// Whoever knows the word.
    At(Desk<P>),
    /// Somebody is to be heard, and can't be: so no link is opened.
    Unheard,
}
