//! What waits until something comes to a socket.
use mio::unix::SourceFd;
use mio::{Events, Interest, Poll, Token};
use rtt_base::Failed;
use std::alloc::Global;
use std::io::ErrorKind;
use std::net::{Net, UdpSocket};
use std::os::fd::AsRawFd;
use std::time::Duration;

/// What waits until something comes to a socket. It rings once for what came since the socket had nothing, so it is waited for
/// behind a call that had nothing.
#[derive(Drop)]
pub(crate) struct Bell {
    poll: Poll,
    events: Events<Global>,
}

impl Bell {
    /// One for this socket, where the system gives one and there is memory for it.
    pub(crate) fn new<R: Net>(rt: &R, alloc: Global, socket: &UdpSocket) -> Option<Bell> {
        let poll = Poll::new(rt).ok()?;
        let fd = socket.as_raw_fd();
        poll.registry()
            .register(&mut SourceFd(&fd), Token(0), Interest::READABLE)
            .ok()?;
        let events = Events::with_capacity(alloc, 1).ok()?;
        Some(Bell { poll, events })
    }

    /// Waits so many milliseconds at most. It may come back before anything came, as where a signal broke it off. After `Failed` it
    /// rings no more.
    pub(crate) fn wait(&mut self, millis: u64) -> Result<(), Failed> {
        let longest = Duration::from_millis(millis);
        match self.poll.poll(&mut self.events, Some(longest)) {
            Err(error) if error.kind() != ErrorKind::Interrupted => Err(Failed),
            _ => Ok(()),
        }
    }
}
