//! How far a leg is.
ghost use Rattle.std.specs.Prelude.{◌≡◌};
ghost use Rattle.live_leg.specs.States.{is_ending, is_over, is_parting};

/// How far a leg is.
#[derive(Clone, Copy, Debug, PartialEq, Eq)]
pub(crate) enum State {
    /// All that is ready was given, and that was said.
    Idle,
    /// Something came, and what is ready by then is being given.
    Giving,
    /// Nothing came when it was asked, and what is ready by then is being given.
    Blank,
    /// One took over from the sender, and what is left of that one is being given. The datagram is not heard yet.
    Parting,
    /// It is closed, and what is left is being given.
    Ending,
    /// The last item was given.
    Over,
}

impl State {
    pub(crate) fn is_over(self) -> bool
        ensures { result ≡ is_over self }
    {
        matches!(self, State::Over)
    }

    pub(crate) fn is_ending(self) -> bool
        ensures { result ≡ is_ending self }
    {
        matches!(self, State::Ending)
    }

    pub(crate) fn is_parting(self) -> bool
        ensures { result ≡ is_parting self }
    {
        matches!(self, State::Parting)
    }
}
