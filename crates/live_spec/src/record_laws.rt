//! What holds of the definitions. Each law is the contract of a function that does nothing.
ghost use Rattle.live_spec.specs.Laws.{FilesAreHeard, FilesAreWhole, FrontsAreRead, NothingIsLost, RecordedIsHeard};

/// Each file of a recording is at most 4 MiB, tells at which moment it begins, and is read to its end as what stands in it; none of
/// its moments is behind the last one of a recording.
pub fn files_are_whole()
    ensures { FilesAreWhole }
{}

/// All that was noted stands in the files, once and in its order.
pub fn nothing_is_lost()
    ensures { NothingIsLost }
{}

/// Of a file that breaks off behind its head the records are read that are whole.
pub fn fronts_are_read()
    ensures { FrontsAreRead }
{}

/// What arrives of a leg's stream out of the files of what came of its link, put together, is what came by the takes of the link.
pub fn files_are_heard()
    ensures { FilesAreHeard }
{}

/// Where what came of a link has one file, what is heard of that file is what is heard of the link.
pub fn recorded_is_heard()
    ensures { RecordedIsHeard }
{}
