//! The law of pictures. The function is empty: its contract is the law.
ghost use Rattle.run_picture.specs.Folding.{WholeStoriesAreDrawn};

/// Where no line of a story is left out, and the story tells the journals, each entry of each journal of each site is drawn once, in
/// their order, in the mark of its kind.
pub fn whole_stories_are_drawn()
    ensures { WholeStoriesAreDrawn }
{}
