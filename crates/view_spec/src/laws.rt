//! What holds of the definitions. No code stands here.
ghost use Rattle.std.specs.Prelude.{◌≡◌, ℕ, ◌+◌, List, length};
ghost use Rattle.std.specs.List.{concat};
ghost use Rattle.wire_spec.specs.Packets.{Arrival, AreTextArrivals};
ghost use Rattle.view_spec.specs.Shown.{shown};
ghost use Rattle.stream_spec.specs.Hearing.{heard};
ghost use Rattle.stream_spec.specs.History.{History, Lawful, Come, places};
ghost use Rattle.stream_spec.specs.Kept.{kept};
ghost use Rattle.view_spec.specs.Markers.{marker_count, markers_in, shown_markers, new_texts_heard, typed_markers};

/// What is heard of a source are the markers that are counted and the new texts. Of a lawful history they are the markers which
/// the packets that came in time leave of it. A U+FFFD that was typed stands in a block, and is none of them.
pub fn markers_are_told()
    ensures heard { (wait : ℕ) (past : List Arrival) (s : ℕ)
        → length (heard wait past s) ≡ marker_count wait past s + length (new_texts_heard wait past s) }
    ensures markers { (wait : ℕ) (h : History) → Lawful h → (past : List Arrival) → Come h past → (s : ℕ)
        → marker_count wait past s ≡ markers_in (kept h (places wait h past) s) }
{}

/// Every marker is seen, whatever is erased: what is shown of a source has as many U+FFFD as markers are counted and as its new
/// texts have.
pub fn markers_are_shown()
    ensures { (wait : ℕ) (past : List Arrival) (s : ℕ) → AreTextArrivals past
        → shown_markers (shown (concat (heard wait past s)))
        ≡ marker_count wait past s + typed_markers (new_texts_heard wait past s) }
{}
