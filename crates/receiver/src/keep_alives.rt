//! Keep-alives, which are no text to a mixer.
ghost use Rattle.std.specs.Prelude.{◌≡◌};
ghost use Rattle.stream_spec.specs.Still.{is_blank};

/// Whether a text is one or more U+FEFF and nothing else, or empty: what a terminal sends while nobody types.
pub fn is_blank(text: &[u8]) -> bool
    ensures { result ≡ is_blank text.now }
{
    match text {
        [0xEF, 0xBB, 0xBF, rest @ ..] => is_blank(rest),
        [] => true,
        _ => false,
    }
}
