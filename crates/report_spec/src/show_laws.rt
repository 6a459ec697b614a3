//! What holds of the definitions.
ghost use Rattle.report_spec.specs.ShowLaws.{LostAreRows};

/// As many numbers of a stream are lost as stand in the rows that `times` tells of.
pub fn lost_numbers_are_rows()
    ensures { LostAreRows }
{}
