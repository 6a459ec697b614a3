//! What is counted of a leg.
ghost use Rattle.std.specs.Prelude.{◌≡◌, ◌+◌};
ghost use Rattle.live_spec.specs.Tally.{as_kept, untallied, with_foreign, with_refused, with_sender, with_text};
ghost use Rattle.live_leg.specs.Tallies.{CountsWith, IsTally, counts_sent};

use crate::senders::DatagramSender;

/// What came of a leg, counted. A count that has come to 2^64 - 1 stays there.
#[derive(Clone, Copy, Debug, Default, PartialEq, Eq)]
pub struct LegTally {
    /// The datagrams that came.
    pub came: u64,
    /// How many of them were packets of text of one who is heard.
    pub text: u64,
    /// How many were no packet of text with the payload types of the leg, or too large.
    pub refused: u64,
    /// How many were packets of text of one who is not heard: they are passed over.
    pub foreign: u64,
    /// How many senders were heard: of a leg that is not followed one, where a packet of text came of it.
    pub senders: u64,
}

/// The count behind one more.
fn count_up(count: u64) -> u64
    ensures { result ≡ as_kept (count + 1) }
{
    count.saturating_add(1)
}

impl LegTally {
    /// Nothing came.
    pub(crate) fn new() -> LegTally
        ensures { IsTally result untallied }
    {
        LegTally {
            came: 0,
            text: 0,
            refused: 0,
            foreign: 0,
            senders: 0,
        }
    }

    /// Counts a packet of the sender.
    fn hear(&mut self)
        ensures { CountsWith with_text self.old self.new }
    {
        self.came = count_up(self.came);
        self.text = count_up(self.text);
        self.senders = self.senders.max(1);
    }

    /// Counts a packet of one who is the sender from now on.
    fn hear_other(&mut self)
        ensures { CountsWith with_sender self.old self.new }
    {
        self.came = count_up(self.came);
        self.text = count_up(self.text);
        self.senders = count_up(self.senders);
    }

    /// Counts what is no packet of text, or too large.
    pub(crate) fn refuse(&mut self)
        ensures { CountsWith with_refused self.old self.new }
    {
        self.came = count_up(self.came);
        self.refused = count_up(self.refused);
    }

    /// Counts a packet of text that is passed over.
    fn pass_over(&mut self)
        ensures { CountsWith with_foreign self.old self.new }
    {
        self.came = count_up(self.came);
        self.foreign = count_up(self.foreign);
    }

    /// Counts a datagram that was sent so.
    pub(crate) fn count(&mut self, sent: DatagramSender)
        ensures { CountsWith (counts_sent sent) self.old self.new }
    {
        match sent {
            DatagramSender::Refused => self.refuse(),
            DatagramSender::Foreign => self.pass_over(),
            DatagramSender::Sender => self.hear(),
            DatagramSender::First | DatagramSender::Other => self.hear_other(),
        }
    }
}
