//! What holds of the definitions.
ghost use Rattle.report_spec.specs.TimesLaws.{TextLinesAreScripts};

/// The text lines of a stream and a source are the lines of their script, in the same order.
pub fn text_lines_are_scripts()
    ensures { TextLinesAreScripts }
{}
