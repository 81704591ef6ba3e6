//! The directions between sites, and the fates of packets.
ghost use Rattle.std.specs.Prelude.{◌≡◌, None};
ghost use Rattle.world_state.specs.Steps.{is_up_word};
ghost use Rattle.world.specs.Following.{IsBuilt};
ghost use Rattle.world.specs.Precheck.{precheck_refusal};
ghost use Rattle.world.specs.Doing.{DoesAnywhere};

use net_plan::Fate;
use rep_lists::Items;
use rep_values::SiteName;
use script_parse::{Command, Link};
use std::alloc::Global;
use world::{Answer, CommandStop, WorldParts};

/// `fate` with fates
pub fn add_fates(
    parts: &mut WorldParts,
    alloc: Global,
    from: &SiteName,
    to: &SiteName,
    fates: &Items<Fate>,
) -> Result<Answer, CommandStop>
    requires built { IsBuilt parts.old }
    requires passes { precheck_refusal (Command.Fates from.now to.now fates.now) parts.old ≡ None }
    ensures { DoesAnywhere (Command.Fates from.now to.now fates.now) parts.old parts.new result }
{
    let Ok(()) = parts.net.add_fates(from, to, fates.as_slice()) else {
        return Err(CommandStop::Memory);
    };
    Ok(Answer::nothing(alloc))
}

/// `fate` with `clear`
pub fn clear_fates(
    parts: &mut WorldParts,
    alloc: Global,
    from: &SiteName,
    to: &SiteName,
) -> Result<Answer, CommandStop>
    requires built { IsBuilt parts.old }
    requires passes { precheck_refusal (Command.ClearFates from.now to.now) parts.old ≡ None }
    ensures { DoesAnywhere (Command.ClearFates from.now to.now) parts.old parts.new result }
{
    parts.net.clear_fates(from, to);
    Ok(Answer::nothing(alloc))
}

fn is_up_word(link: Link) -> bool
    ensures { result ≡ is_up_word link }
{
    match link {
        Link::Up => true,
        Link::Down => false,
    }
}

/// `link`
pub fn set_link(
    parts: &mut WorldParts,
    alloc: Global,
    from: &SiteName,
    to: &SiteName,
    link: Link,
) -> Result<Answer, CommandStop>
    requires built { IsBuilt parts.old }
    requires passes { precheck_refusal (Command.Link from.now to.now link) parts.old ≡ None }
    ensures { DoesAnywhere (Command.Link from.now to.now link) parts.old parts.new result }
{
    parts.net.set_link(from, to, is_up_word(link));
    Ok(Answer::nothing(alloc))
}
