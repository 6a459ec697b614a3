//! What holds of the definitions. No code stands here.
ghost use Rattle.std.specs.Prelude.{◌≡◌, ◌≤◌, ℕ, ◌+◌, List, length, All};
ghost use Rattle.file_spec.specs.Kept.{IsConference};
ghost use Rattle.stream_spec.specs.History.{History, Lawful, Come};
ghost use Rattle.command_spec.specs.declared.requests.ReadRequest.{ReadRequest};
ghost use Rattle.view_spec.specs.Seen.{display_at, counts_at};
ghost use Rattle.command_spec.specs.Reading.{arrivals_of, history_view, read_view, reception, records_of};
ghost use Rattle.command_spec.specs.Streams.{AreGiven, stream};
ghost use Rattle.command_spec.specs.Scripts.{AreLines};
ghost use Rattle.command_spec.specs.Generated.{generated};
ghost use Rattle.command_spec.specs.Attended.{AttendedAreBridged, AttendedAreOne, NamedAreConferences};
ghost use Rattle.command_spec.specs.Bridges.{BridgesAreOne, MixedAreBridged};
ghost use Rattle.command_spec.specs.Cascaded.{CascadesAreBridged, CascadesAreOne};
ghost use Rattle.mixer_spec.specs.declared.limits.TheConstants.{PLACES};

/// Where what arrives out of a recording comes from a lawful history, what `read` prints is the view of that history: the
/// source's blocks which came in time, each once, and markers.
pub fn histories_are_shown()
    ensures { (h : History) → Lawful h → (r : ReadRequest) (octets : List ℕ) → Come h (arrivals_of r octets)
        → read_view r octets ≡ history_view h r octets }
{}

/// What `show` shows of a source of a stream is what `read` shows of it, and it uses as many packets, where the two payload
/// types are ones that are given to text.
pub fn shown_is_read()
    ensures shown { (r : ReadRequest) (octets : List ℕ) → AreGiven r.payload_types
        → display_at (reception r) (stream r.payload_types r.ssrc (records_of octets)) r.source
        ≡ display_at (reception r) (records_of octets) r.source }
    ensures used { (r : ReadRequest) (octets : List ℕ) → AreGiven r.payload_types
        → (counts_at (reception r) (stream r.payload_types r.ssrc (records_of octets))).used
        ≡ (counts_at (reception r) (records_of octets)).used }
{}

/// What `mix` makes of a conference is bridged, whatever lies in its inputs and whatever its plan says: each output has the
/// packets of a lawful history in which each text was repeated, and what is printed is what is heard behind both hops. Of what
/// a terminal shares of a leg nothing is absent there but what every packet carrying it lost.
pub fn mixed_is_bridged()
    ensures { MixedAreBridged }
{}

/// What lies in the file of a conference and in its inputs decides the conference, the octets of its inputs and the table at
/// the end. So the bridge that `mixed_is_bridged` tells of is the only one.
pub fn bridges_are_one()
    ensures { BridgesAreOne }
{}

/// What `attend` makes of a conference is bridged, whatever lies in its inputs: it is what mixing makes of the conference with the
/// names and the leavings that the RTCP records of its inputs tell.
pub fn attended_are_bridged()
    ensures { AttendedAreBridged }
{}

/// What lies in the file of a conference and in its inputs decides what is attended: the bridge that `attended_are_bridged` tells
/// of is the only one.
pub fn attended_are_one()
    ensures { AttendedAreOne }
{}

/// What comes of a conference of which some legs stand behind another mixer, whose recording is split for them: the conference is
/// mixed as any is, and what is heard of such a leg, put together, is what is heard of its SSRC in the recording. Where that is of
/// a lawful history, it is what is kept of the history, and the headline holds from the sender of that to each aware terminal.
pub fn cascades_are_bridged()
    ensures { CascadesAreBridged }
{}

/// What lies in the file of a conference, in the recording of the other mixer and in the inputs decides what is cascaded: the bridge
/// that `cascades_are_bridged` tells of is the only one.
pub fn cascades_are_one()
    ensures { CascadesAreOne }
{}

/// What is generated from a number is a conference of at most 16 legs that keeps all limits, and for each leg a script that
/// can be sent.
pub fn generated_conferences_keep()
    ensures conference { (n : ℕ) → IsConference (generated n).conference }
    ensures legs { (n : ℕ) → length (generated n).conference.legs ≤ PLACES }
    ensures scripts { (n : ℕ) → All AreLines (generated n).scripts }
    ensures each_script { (n : ℕ) → length (generated n).scripts ≡ length (generated n).conference.legs }
    ensures each_first { (n : ℕ) → length (generated n).firsts ≡ length (generated n).conference.legs }
{}

/// A conference with the names and the leavings that its inputs tell keeps all limits, whatever they tell.
pub fn named_conferences_keep()
    ensures { NamedAreConferences }
{}
