//! How the inbound end of a link comes to its end.
ghost use Rattle.std.specs.Prelude.{◌≡◌, true, false};

use link_io::Came;

/// How many datagrams that lie there when the call is stopped are still heard.
const MOST_BEHIND: u16 = 256;

/// How far a link is.
#[derive(Clone, Copy, Debug, PartialEq, Eq)]
pub(crate) struct Course {
    /// How many datagrams are still heard once the call is stopped.
    behind: u16,
    /// It is closed, since the call was stopped.
    pub(crate) ended: bool,
}

impl Course {
    /// That of a link of a call that goes on.
    pub(crate) fn new() -> Course
        ensures { result.ended ≡ false }
    {
        Course {
            behind: MOST_BEHIND,
            ended: false,
        }
    }

    /// The same once this came. Where the call is to end, what lies there is heard, and then the link is closed.
    pub(crate) fn after(self, stopping: bool, came: Came) -> Course
        ensures { self.ended ≡ true → result.ended ≡ true }
    {
        if !stopping {
            return self;
        }
        Course {
            behind: self.behind.saturating_sub(1),
            ended: self.ended || self.behind == 0 || came == Came::Quiet,
        }
    }

    /// What is told where this came.
    pub(crate) fn told(self, came: Came) -> Came
        ensures ended { self.ended ≡ true → result ≡ Came.Closed }
        ensures open { self.ended ≡ false → result ≡ came }
    {
        if self.ended { Came::Closed } else { came }
    }
}
