//! Laws over all lists of calls of a net. The functions are empty: their contracts are the laws.
ghost use Rattle.net_plan.specs.Laws.{DeliveredWasSent, PassesInOrder, GivenPairsStay, OtherDirectionsStay};

/// Whatever is called on a net, each packet that is delivered in a direction was sent in it before. Where the direction
/// is given no fates, its packets come in the order in which they are sent, each once.
pub fn deliveries_were_sent()
    ensures sent { DeliveredWasSent }
    ensures in_order { PassesInOrder }
{}

/// Whatever is called on a net, each pair that was given to `make` has its direction, so that further calls on it can be
/// made; and a call leaves all other directions as they were.
pub fn directions_stay()
    ensures given { GivenPairsStay }
    ensures others { OtherDirectionsStay }
{}
