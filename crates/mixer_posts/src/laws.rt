//! Laws of what a mixer sends.
ghost use Rattle.mixer_posts.specs.Laws.{PostsAreEntered};

/// What the calls of a mixer send to a terminal is what the definition enters there, in its order, at its moments.
pub fn posts_are_entered()
    ensures { PostsAreEntered }
{}
