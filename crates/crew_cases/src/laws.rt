//! Laws of two sites of a run. The functions are empty: their contracts are the laws.
ghost use Rattle.crew_cases.specs.Runs.{TwoBegin, TwoCommit, TwoDeliver, TwoApply, TwoPass};

/// Two new sites are in a run, stay in it, and can pass.
pub fn two_sites_run()
    ensures begin { TwoBegin }
    ensures commit { TwoCommit }
    ensures deliver { TwoDeliver }
    ensures apply { TwoApply }
    ensures pass { TwoPass }
{}
