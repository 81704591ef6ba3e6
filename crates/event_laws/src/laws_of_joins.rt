//! Laws over every list of events. The functions are empty: their contracts are the laws.
ghost use Rattle.event_laws.specs.Joined.{JoinsCopy, OtherJoinsChangeNothing};
ghost use Rattle.event_laws.specs.Names.{EachIsFoundByItsName, NamesStayApart};
ghost use Rattle.event_laws.specs.Streams.{ArrivalsAreOfStreams, InEveryLinkedRun, LinksStay};
ghost use Rattle.event_laws.specs.Waiting.{StreamsMeet};

/// A late master that may join begins with the present tables of the site that it copies and with how much each master has queued by
/// then, and nothing has happened at it. It is open from its first transaction on to each master that is there, and each of them opens
/// its stream to it behind all that it has queued; the rest of the sites is as before (`copied`). Any other join changes nothing
/// (`refused`).
pub fn joins_copy()
    ensures copied { JoinsCopy }
    ensures refused { OtherJoinsChangeNothing }
{}

/// What a site keeps for another one and what that one has of it is one stream, whatever happens: both agree on where it begins
/// (`meet`), and all that has arrived is what the stream has at its position (`arrived`). Sites stay as the schema declares them, and
/// nobody is ever open to a late master that isn't there (`meshed`).
pub fn streams_meet()
    ensures meet { InEveryLinkedRun StreamsMeet }
    ensures arrived { InEveryLinkedRun ArrivalsAreOfStreams }
    ensures meshed { LinksStay }
{}

/// Where no two sites have the same name at first, none have it later, whatever happens, joins among it (`apart`); so each site is
/// found by its name (`found`).
pub fn names_stay_apart()
    ensures apart { NamesStayApart }
    ensures found { EachIsFoundByItsName }
{}
