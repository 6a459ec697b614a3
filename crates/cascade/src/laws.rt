//! Laws of splits.
ghost use Rattle.cascade.specs.Texts.{AllSplitsAreWhole};

/// Each split of a recording is read to its end: it has at most twice the octets that the recording may have, and so at most as
/// many as an input of a leg may have.
pub fn all_splits_are_whole()
    ensures { AllSplitsAreWhole }
{}
