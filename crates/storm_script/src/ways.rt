//! The sites of a storm, the directions between them, and what may become of a packet.
ghost use Rattle.std.specs.Prelude.{◌≡◌, ◌<◌};
ghost use Rattle.storm_script.specs.Sites.{site_a, sites, way, ways, site_at, way_at, fate_at};

use crate::words::site;
use net_plan::Fate;
use rep_values::SiteName;

/// From a site to another one.
#[derive(Clone, Copy)]
pub struct Way {
    pub from: SiteName,
    pub to: SiteName,
}

/// The sites in declared order.
pub fn sites() -> [SiteName; 3]
    ensures { result ≡ sites }
{
    [site(b"A"), site(b"B"), site(b"C")]
}

/// The site whose rows there are.
pub fn first_site() -> SiteName
    ensures { result ≡ site_a }
{
    site(b"A")
}

fn between(from: &SiteName, to: &SiteName) -> Way
    ensures { result ≡ way from.now to.now }
{
    Way {
        from: *from,
        to: *to,
    }
}

/// From each site to each other one, in declared order.
pub fn ways() -> [Way; 6]
    ensures { result ≡ ways }
{
    let [a, b, c] = sites();
    [
        between(&a, &b),
        between(&a, &c),
        between(&b, &a),
        between(&b, &c),
        between(&c, &a),
        between(&c, &b),
    ]
}

/// The site at a place.
pub fn site_at(place: usize) -> SiteName
    requires { place < 3 }
    ensures { result ≡ site_at place }
{
    sites()[place]
}

/// The direction at a place.
pub fn way_at(place: usize) -> Way
    requires { place < 6 }
    ensures { result ≡ way_at place }
{
    ways()[place]
}

/// The fate at a place.
pub fn fate_at(place: usize) -> Fate
    requires { place < 4 }
    ensures { result ≡ fate_at place }
{
    [Fate::Pass, Fate::Lose, Fate::Twice, Fate::Late][place]
}
