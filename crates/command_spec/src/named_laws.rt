//! What holds of the definitions. No code stands here.
ghost use Rattle.command_spec.specs.Stretches.{EachIsStretch, HopsAreStretches, RunsAreStretches, RunsAreAll};
ghost use Rattle.command_spec.specs.Named.{BeforeLabelIsOnes, BehindLabelIsTyped, ComposedIsNamed};
ghost use Rattle.command_spec.specs.Heard.{AnyIsNamed, EndIsNamed, SentIsNamed};
ghost use Rattle.command_spec.specs.Seen.{AnyIsShown, EndIsShown, PartsAreEnds, SentIsShown};

/// What is told of a source, cut at its markers, are stretches of its entries with text.
pub fn runs_are_stretches()
    ensures history { RunsAreStretches }
    ensures hop { HopsAreStretches }
    ensures each { EachIsStretch }
    ensures all { RunsAreAll }
{}

/// In a composer's one text each character that prints stands behind the label of the leg that typed it, up to the next label.
pub fn composed_is_named()
    ensures { ComposedIsNamed }
{}

/// So what stands behind a label in a part of that text, up to the next label, was typed by its leg; and what stands before the
/// first was typed by one leg.
pub fn labels_tell()
    ensures behind { BehindLabelIsTyped }
    ensures before { BeforeLabelIsOnes }
{}

/// What a terminal hears that is not aware, whatever is lost, late or repeated on the way to it, are stretches of that text with a
/// marker between each two. Within each, each character that prints stands behind the label of the leg that typed it, up to the
/// next label or marker; and what stands before the first label was typed by one leg.
pub fn heard_is_named()
    ensures sent { SentIsNamed }
    ensures end { EndIsNamed }
    ensures any { AnyIsNamed }
{}

/// What is shown there is what is shown of each stretch for itself, with a marker between each two; and of each stretch its labels
/// whole, and behind each label, up to the next, what prints of what its leg typed there.
pub fn shown_is_named()
    ensures sent { SentIsShown }
    ensures end { EndIsShown }
    ensures any { AnyIsShown }
{}

/// What is shown of a part of a text is the end of what is shown of all up to there. So where what stands before it is lost, the
/// same of its own characters are taken back as if that had come: an erasure of a lost character takes back nothing.
pub fn parts_are_ends()
    ensures { PartsAreEnds }
{}
