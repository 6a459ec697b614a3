//! How long a peer may be silent.
ghost use Rattle.std.specs.Prelude.{ℕ, Option, None};

use std::marker::Brand;

/// How long a peer may be silent before it has gone (milliseconds), where there is an end to it: one length for all links of a kind.
pub trait Silence {
    ghost longest: { Option ℕ };
}

impl Silence for Brand {
    ghost longest = { None };
}
