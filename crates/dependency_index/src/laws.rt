//! Laws of dependency numbers.
ghost use Rattle.dependency_index.specs.Laws.{NumbersAreEarlier, SharersAreCounted, NumberedOnesShare};

/// A dependency number is an earlier position or 0, no later position shares a token, and the one that it is shares one.
pub fn dependency_laws()
    ensures earlier { NumbersAreEarlier }
    ensures greatest { SharersAreCounted }
    ensures shares { NumberedOnesShare }
{}
