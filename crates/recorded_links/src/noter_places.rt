//! Where who notes is.
ghost use Rattle.std.specs.Prelude.{◌≡◌, false, [], IfSome};
ghost use Rattle.std.proofs.Props.{props};
ghost use Rattle.recorded_links.specs.Shelves.{noted};

use crate::Way;
use crate::noters::Noter;

/// Where who notes of a recording is.
#[derive(Drop)]
pub(crate) struct NoterPlace<R> {
    /// The number of the recording.
    pub(crate) number: usize,
    /// The port at which the link is opened of which it is.
    pub(crate) port: u16,
    pub(crate) way: Way,
    /// A link was opened at the port.
    pub(crate) given: bool,
    /// Who notes, where no end of a link has it.
    pub(crate) noter: Option<Noter<R>>,
    ghost of: { IfSome noter (λ n. n.number ≡ number) } by { Prim.hlevel props },
    ghost fresh: { given ≡ false → IfSome noter (λ n. noted n.pass ≡ []) } by { Prim.hlevel props },
}
