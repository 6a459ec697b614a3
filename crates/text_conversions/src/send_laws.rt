//! What holds of scripts and of what they send. No code stands here.
ghost use Rattle.text_conversions.specs.SendLaws.{AcceptedAreLines, AllArriveInTime, AllTextIsHeard, AllTextIsSent, ArrivalsMayCome, EndsAgree, EndsComeEarly, FirstIsFirst, PacketsAreReadBack, RecordsAreReadBack, ScriptsEnd, SentIsClosed, SentIsLawful, SentIsOwn};

/// A script that is accepted has its lines in order, in the first four hours, and their texts are UTF-8.
pub fn accepted_scripts_are_lines()
    ensures { AcceptedAreLines }
{}

/// The recording is the same at each end.
pub fn ends_agree()
    ensures { EndsAgree }
{}

/// A script of which no line is full has an end. The first one comes before 80000000 ms, and before each other.
pub fn scripts_end()
    ensures end { ScriptsEnd }
    ensures early { EndsComeEarly }
    ensures first { FirstIsFirst }
{}

/// What a script sends is a lawful history, each entry of which has two generations. At an end each text was repeated
/// twice, and the texts of the history together are those of all lines, in order.
pub fn sent_history()
    ensures lawful { SentIsLawful }
    ensures own { SentIsOwn }
    ensures closed { SentIsClosed }
    ensures texts { AllTextIsSent }
{}

/// A recording that is neither too large nor too long is read back as its records. Their packets are read as the
/// packets of the history, in order.
pub fn sent_is_read_back()
    ensures records { RecordsAreReadBack }
    ensures packets { PacketsAreReadBack }
{}

/// What arrives out of such a recording are packets of the history, and all of them come in time.
pub fn sent_arrives()
    ensures come { ArrivalsMayCome }
    ensures all { AllArriveInTime }
{}

/// What is heard of such a recording, however long a gap is waited for, is the text of all lines.
pub fn sent_is_heard()
    ensures { AllTextIsHeard }
{}
