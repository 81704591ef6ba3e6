//! What an applier claims, and what it comes to.
ghost use Rattle.std.specs.Prelude.{◌≡◌, ◌≤◌, None, IfOk, IfSome};
ghost use Rattle.rep_laws.specs.Commuting.{IsSound};
ghost use Rattle.site_state.specs.Ready.{stale_of};
ghost use Rattle.parallel_apply.specs.Crews.{IsClaimAt, IsOutcomeOf};

use rep_lists::NoMemory;
use rep_schema::RowStore;
use rep_values::SiteName;
use row_tables::SharedSchema;
use site_engine::Site;
use std::alloc::Global;
use txn_apply::{Outcome, Work};

/// A position that an applier claimed, with its work where it is evaluated outside the lock.
#[derive(Drop)]
pub struct Claim {
    pub position: u64,
    pub work: Option<Work>,
}

/// A claimed position, with how its transaction ends where that was evaluated outside the lock.
#[derive(Drop)]
pub struct Evaluated {
    pub position: u64,
    pub outcome: Option<Outcome>,
}

/// How many appliers have work at first: one for each position of a sender that is ready, at most so many.
pub(crate) fn appliers_for<R: RowStore>(site: &Site<R>, origin: &SiteName, most: u32) -> u32
    ensures { result ≤ most }
{
    let mut above = 0;
    for ready in 0..most {
        let Some(position) = site.lowest_ready(origin, above) else {
            return ready;
        };
        above = position;
    }
    most
}

/// The claim of a position that is ready; None where there is no memory. A transaction that touches a constraint of a table is
/// evaluated in the turn that installs it.
pub(crate) fn claimed<R: RowStore>(
    site: &Site<R>,
    alloc: Global,
    schema: &SharedSchema,
    origin: &SiteName,
    position: u64,
) -> Option<Claim>
    requires schema { schema.now ≡ site.now.schema }
    requires sound { IsSound site.now.schema }
    requires ready { stale_of origin.now position site.now ≡ None }
    ensures { IfSome result (IsClaimAt origin.now site.now) }
{
    if site.has_unique(origin, position) {
        return Some(Claim {
            position,
            work: None,
        });
    }
    let Ok(work) = site.begin_sharing(alloc, schema, origin, position) else {
        return None;
    };
    Some(Claim {
        position,
        work: Some(work),
    })
}

/// Evaluates what was claimed, on the copies that its work has.
pub(crate) fn evaluate(alloc: Global, claim: Claim) -> Result<Evaluated, NoMemory>
    ensures position { IfOk result (λ done. done.position ≡ claim.position) }
    ensures outcome { IfOk result (λ done. IsOutcomeOf claim.work done.outcome) }
{
    let Claim { position, work } = claim;
    let Some(work) = work else {
        return Ok(Evaluated {
            position,
            outcome: None,
        });
    };
    let outcome = work.evaluate(alloc)?;
    Ok(Evaluated {
        position,
        outcome: Some(outcome),
    })
}
