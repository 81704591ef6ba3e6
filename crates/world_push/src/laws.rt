//! Laws of masters that are lent out. The function is empty: its contract is the laws.
ghost use Rattle.world_push.specs.Lending.{LendingsAreEvents, LendingsKeepWorldsBuilt, LivePartsKeepWorldsBuilt, ReturnsKeepWorldsBuilt};

/// What is done before a live part and behind it are events of the world (`events`). A world that is built stays so as a master is
/// lent out (`lent`), where the master comes back as turns leave it (`back`), and as its marks go to the others (`closed`). Which
/// turns these are doesn't matter: any list of them leads there, runs or not.
pub fn live_parts_keep_worlds_built()
    ensures events { LendingsAreEvents }
    ensures lent { LendingsKeepWorldsBuilt }
    ensures back { LivePartsKeepWorldsBuilt }
    ensures closed { ReturnsKeepWorldsBuilt }
{}
