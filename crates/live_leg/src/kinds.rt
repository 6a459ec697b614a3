//! What kinds of things a leg gives.

/// What a leg gives.
#[derive(Clone, Copy, Debug, PartialEq, Eq)]
pub enum ItemKind<F> {
    /// A text that was heard, with the moment from which it may be mixed.
    Text,
    /// All that is ready by what came so far was given.
    Seen,
    /// The same, and nothing had come when it was asked last.
    Silent,
    /// Nothing more comes, and all that was heard was given.
    End,
    /// Nothing more comes, for this reason.
    Fault(F),
}
