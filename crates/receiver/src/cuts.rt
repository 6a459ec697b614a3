//! How texts are handed out.
ghost use Rattle.std.specs.Prelude.{◌≡◌, ◌≤◌, true};
ghost use Rattle.receiver.specs.Cuts.{cut_within, is_cut, is_dropped, most_of};
ghost use Rattle.rtt_base.specs.declared.limits.TheConstants.{MOST_TEXT_OCTETS};

use crate::is_blank;
use mixer_spec::piece_limits::MOST_PIECE_OCTETS;
use rtt_base::limits::MOST_TEXT_OCTETS;

/// How an ear of one source hands out the texts that it hears.
#[derive(Clone, Copy, Debug, PartialEq, Eq)]
pub enum TextCut {
    /// Each as it is heard; one of more than 1023 octets, which no leg without long texts has, in pieces of as many.
    Never,
    /// But for keep-alives (U+FEFF alone), and cut between characters into pieces of at most 1023 octets.
    Long,
    /// The same, in pieces of at most 128 octets.
    Short,
}

impl TextCut {
    /// How a mixer's legs are heard, where its packets have at most so many octets, if that is said.
    pub fn within(mtu: Option<u32>) -> TextCut
        ensures value { result ≡ cut_within mtu }
        ensures cut { is_cut result ≡ true }
    {
        match mtu {
            None => TextCut::Long,
            Some(_) => TextCut::Short,
        }
    }

    /// The most octets of what is handed out at once.
    pub(crate) fn most(self) -> usize
        ensures value { result ≡ most_of self }
        ensures fits { result ≤ MOST_TEXT_OCTETS }
    {
        match self {
            TextCut::Never | TextCut::Long => MOST_TEXT_OCTETS,
            TextCut::Short => MOST_PIECE_OCTETS,
        }
    }

    /// Whether a text is not handed out.
    pub(crate) fn drops(self, text: &[u8]) -> bool
        ensures { result ≡ is_dropped self text.now }
    {
        match self {
            TextCut::Never => false,
            TextCut::Long | TextCut::Short => is_blank(text),
        }
    }
}
