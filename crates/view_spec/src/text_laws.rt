//! Laws of the definitions, each the contract of a function that does nothing.
ghost use Rattle.std.specs.Prelude.{◌≡◌, ◌==◌, ℕ, ◌+◌, ◌<◌, ◌≤◌, true, false, ◌&&◌, List, [], ◌∷◌, ◌++◌, length, reverse, All, chars, encode_utf8_all, encode_utf8, IsUtf8};
ghost use Rattle.std.specs.List.{concat, list_all};
ghost use Rattle.std.specs.Str.{all_scalars};
ghost use Rattle.view_spec.specs.declared.classes.CharClass.TheVariants.{Bell, Erase, Marker, NewLine, Print, Silent};
ghost use Rattle.view_spec.specs.Characters.{class_of, is_bell, is_erasable, is_erasure, is_marker, is_print};
ghost use Rattle.view_spec.specs.Ends.{from_end};
ghost use Rattle.view_spec.specs.Shown.{begins_with_lf, bells, ends_with_cr, marker_count, one_back, shown, signs, survivors, with_marker_between};

/// One more sign at the end of a text: what survives is what a stack holds.
pub fn one_more_sign()
    // An erasure takes the last survivor away, if there is one and it is no marker.
    ensures erasure { (cs : List ℕ) (c : ℕ) → class_of c ≡ Erase
        → survivors (cs ++ c ∷ []) ≡ one_back (survivors cs) }
    // A letter or a new line is put behind the survivors.
    ensures erasable { (cs : List ℕ) (c : ℕ) → is_erasable (class_of c) ≡ true
        → survivors (cs ++ c ∷ []) ≡ survivors cs ++ c ∷ [] }
    // A marker is put there too, and stays.
    ensures marker { (cs : List ℕ) (c : ℕ) → class_of c ≡ Marker
        → survivors (cs ++ c ∷ []) ≡ survivors cs ++ c ∷ [] }
    // Anything else changes nothing.
    ensures others { (cs : List ℕ) (c : ℕ) → is_marker (class_of c) ≡ false → is_erasable (class_of c) ≡ false
        → is_erasure (class_of c) ≡ false → survivors (cs ++ c ∷ []) ≡ survivors cs }
{}

/// A text may be read piece by piece, if one remembers whether CR came last.
pub fn pieces()
    // The signs of two pieces are those of the one and of the other, unless a CR LF is cut in two.
    ensures apart { (xs ys : List ℕ) → (ends_with_cr xs && begins_with_lf ys) ≡ false
        → signs (xs ++ ys) ≡ signs xs ++ signs ys }
    // An LF that follows a CR is no sign of its own.
    ensures cr_lf { (xs : List ℕ) → ends_with_cr xs ≡ true → signs (xs ++ 10 ∷ []) ≡ signs xs }
    ensures bells { (xs ys : List ℕ) → bells (xs ++ ys) ≡ bells xs + bells ys }
{}

/// One more character at the end of a text: what then survives.
pub fn one_more_character()
    ensures erasure { (cs : List ℕ) (c : ℕ) → class_of c ≡ Erase
        → survivors (signs (cs ++ c ∷ [])) ≡ one_back (survivors (signs cs)) }
    ensures letter { (cs : List ℕ) (c : ℕ) → class_of c ≡ Print
        → survivors (signs (cs ++ c ∷ [])) ≡ survivors (signs cs) ++ c ∷ [] }
    ensures marker { (cs : List ℕ) (c : ℕ) → class_of c ≡ Marker
        → survivors (signs (cs ++ c ∷ [])) ≡ survivors (signs cs) ++ c ∷ [] }
    ensures new_line { (cs : List ℕ) (c : ℕ) → class_of c ≡ NewLine
        → ((c == 10) && ends_with_cr cs) ≡ false
        → survivors (signs (cs ++ c ∷ [])) ≡ survivors (signs cs) ++ 10 ∷ [] }
    // The LF of a CR LF changes nothing.
    ensures cr_lf { (cs : List ℕ) → ends_with_cr cs ≡ true
        → survivors (signs (cs ++ 10 ∷ [])) ≡ survivors (signs cs) }
    ensures bell { (cs : List ℕ) (c : ℕ) → class_of c ≡ Bell
        → survivors (signs (cs ++ c ∷ [])) ≡ survivors (signs cs) }
    ensures silent { (cs : List ℕ) (c : ℕ) → class_of c ≡ Silent
        → survivors (signs (cs ++ c ∷ [])) ≡ survivors (signs cs) }
{}

/// A text of characters that are shown as they are is one line, and that line is the text.
pub fn plain_text()
    ensures { (text : List ℕ) → IsUtf8 text
        → list_all (λ c. is_print (class_of c)) (chars text) ≡ true
        → shown text ≡ record { lines = text ∷ []; bells = 0 } }
{}

/// The empty text is one empty line.
pub fn empty_text()
    ensures { shown [] ≡ record { lines = [] ∷ []; bells = 0 } }
{}

/// There is always a line; a line has characters alone that are shown as they are; and all lines together are no longer than the text.
pub fn lines()
    ensures some { (text : List ℕ) → 0 < length (shown text).lines }
    ensures plain { (text : List ℕ) → IsUtf8 text → All (λ line.
        IsUtf8 line × (list_all (λ c. is_print (class_of c)) (chars line) ≡ true)) (shown text).lines }
    ensures short { (text : List ℕ) → IsUtf8 text → length (concat (shown text).lines) ≤ length text }
{}

/// What stands before a marker and what stands behind it are shown each for itself: nothing that is typed behind a marker
/// changes what is shown before it.
pub fn shown_in_parts()
    ensures { (a b : List ℕ) → IsUtf8 a
        → shown (a ++ (encode_utf8 0xFFFD ++ b)) ≡ with_marker_between (shown a) (shown b) }
{}

/// As many markers are shown as the text has.
pub fn markers_are_seen()
    ensures { (text : List ℕ) → IsUtf8 text → marker_count (chars (concat (shown text).lines))
        ≡ marker_count (chars text) }
{}

/// Read from its end a text in UTF-8 is its characters, the last one first.
pub fn ends()
    ensures { (cs : List ℕ) → all_scalars cs ≡ true → from_end (encode_utf8_all cs) ≡ reverse cs }
{}
