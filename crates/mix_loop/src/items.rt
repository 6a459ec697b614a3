//! What a leg gives.
ghost use Rattle.std.specs.Prelude.{◌≡◌};
ghost use Rattle.mix_loop.specs.Items.{ended_by, fault_in, is_chunk, is_fault, is_open};

/// What a leg answers where it is asked for its next text.
#[derive(Clone, Copy, Debug, PartialEq, Eq)]
pub enum Item<F> {
    /// The next text, which is handed out beside it.
    Chunk,
    /// Nothing is there yet.
    Later,
    /// There is no more.
    End,
    /// It can give no more.
    Fault(F),
}

impl<F: Copy> Item<F> {
    pub(crate) fn is_chunk(&self) -> bool
        ensures { result ≡ is_chunk self.now }
    {
        matches!(self, Item::Chunk)
    }

    /// How a leg's texts ended with this answer.
    pub(crate) fn ended(&self) -> TextsEnd<F>
        ensures { result ≡ ended_by self.now }
    {
        match self {
            Item::Chunk | Item::Later => TextsEnd::Open,
            Item::End => TextsEnd::AtEnd,
            Item::Fault(fault) => TextsEnd::AtFault(*fault),
        }
    }
}

/// How a leg's texts ended.
#[derive(Clone, Copy, Debug, PartialEq, Eq)]
pub enum TextsEnd<F> {
    /// There may be more.
    Open,
    /// There is no more.
    AtEnd,
    /// At a fault.
    AtFault(F),
}

impl<F: Copy> TextsEnd<F> {
    /// Whether there may be more.
    pub fn is_open(&self) -> bool
        ensures { result ≡ is_open self.now }
    {
        matches!(self, TextsEnd::Open)
    }

    /// Whether it was at a fault.
    pub fn is_fault(&self) -> bool
        ensures { result ≡ is_fault self.now }
    {
        matches!(self, TextsEnd::AtFault(_))
    }

    /// The fault, if it was at one.
    pub fn fault(&self) -> Option<F>
        ensures { result ≡ fault_in self.now }
    {
        match self {
            TextsEnd::AtFault(fault) => Some(*fault),
            _ => None,
        }
    }
}
