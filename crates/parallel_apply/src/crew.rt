//! The value that the appliers of a crew share.
ghost use Rattle.std.specs.Prelude.{◌≡◌, ℕ, ◌+◌, ◌^◌, ◌<◌, [], ◌∷◌, ◌++◌, None, Option, not, length, IfSome, IfOk, IfErr, OnOk, OnErr};
ghost use Rattle.site_state.specs.Ready.{stale_of, is_ready};
ghost use Rattle.site_state.specs.Passes.{site_apply};
ghost use Rattle.site_engine.specs.Working.{EndsHere};
ghost use Rattle.event_laws.specs.Confluence.{CanPassInAnyOrder};
ghost use Rattle.parallel_apply.specs.Turns.{site_after_crew};
ghost use Rattle.parallel_apply.specs.Crews.{is_stale, IsCrew, IsClaimAt, IsOfEarlierClaim};

use crate::claim::{Claim, Evaluated, claimed};
use crate::claims::Claims;
use crate::turns::TurnLog;
use rep_lists::{Copies, NoMemory};
use rep_schema::RowStore;
use rep_values::SiteName;
use row_tables::SharedSchema;
use site_engine::Site;
use site_gate::Turns;
use site_state::Applied;
use std::alloc::Global;
use std::marker::Model;
use std::snapshot::Snapshot;
use txn_apply::support_outlasts_independent_transactions;

/// A site on which the appliers of a crew make a pass for a sender, turn by turn: what they work on, the turns that they made,
/// and how the site was before the first of these, which only contracts look at. The site's schema stands beside it once more, for
/// all works.
#[derive(Drop)]
pub struct Crew<R: RowStore> {
    // Apart, since the crew goes from applier to applier.
    site: Box<Site<R>>,
    origin: SiteName,
    schema: SharedSchema,
    opened: Snapshot<Site<R>>,
    turns: TurnLog,
    claims: Claims,
}

impl<R: RowStore> Model for Crew<R> {
    ghost use Rattle.std.specs.Prelude.{◌≡◌};
    ghost use Rattle.parallel_apply.specs.Turns.{turns_in};
    ghost use Rattle.parallel_apply.specs.Crews.{CrewState, IsCrew};

    ghost Value = { CrewState };

    ghost view = { λ c. record { opened = c.opened.value; origin = c.origin; turns = turns_in c.turns; site = c.site.value } };

    ghost invariant = { λ c. IsCrew (record { opened = c.opened.value; origin = c.origin; turns = turns_in c.turns; site = c.site.value }) × (c.schema ≡ c.opened.value.schema) };
}

/// How a crew began. No value of it is made.
#[derive(Drop)]
pub struct Opening<R: RowStore> {
    pub site: Site<R>,
    pub origin: SiteName,
}

impl<R: RowStore> Turns for Crew<R> {
    type Turn = Option<u64>;

    type Opening = Opening<R>;

    ghost history = { λ c. c.turns };

    ghost opening = { λ c. record { site = c.opened; origin = c.origin } };
}

/// A copy of a site's schema that works can share.
fn shared_schema<R: RowStore>(alloc: Global, site: &Site<R>) -> Result<SharedSchema, NoMemory>
    ensures { IfOk result (λ schema. schema ≡ site.now.schema) }
{
    let schema = SharedSchema::new(alloc, site.store().schema().copy(alloc)?)?;
    Ok(schema)
}

/// Whether a position was ready, by what became of it.
fn was_ready(applied: &Applied) -> bool
    ensures { result ≡ not (is_stale applied.now) }
{
    match applied {
        Applied::Done | Applied::Error(_) => true,
        Applied::Stale(_) => false,
    }
}

/// Puts what was evaluated into a site where its position is ready still, or evaluates it there, and answers whether it was
/// ready.
fn put_in<R: RowStore>(
    site: &mut Site<R>,
    alloc: Global,
    origin: &SiteName,
    done: Evaluated,
) -> Result<bool, NoMemory>
    requires of { IfSome done.outcome (λ outcome. (outcome.origin ≡ origin.now) × (outcome.position ≡ done.position)) }
    requires ending { stale_of origin.now done.position site.old ≡ None → IfSome done.outcome (λ outcome. EndsHere origin.now done.position site.old outcome.ending) }
    ensures ready { IfOk result (λ ready. ready ≡ is_ready origin.now done.position site.old) }
    ensures ok { OnOk result (site.new ≡ site_apply origin.now done.position site.old) }
    ensures err { OnErr result (site.new ≡ site.old) }
{
    let Evaluated { position, outcome } = done;
    let Some(outcome) = outcome else {
        let applied = site.apply_one(alloc, origin, position)?;
        return Ok(was_ready(&applied));
    };
    if site.stale(origin, position).is_some() {
        return Ok(false);
    }
    site.install(alloc, outcome)?;
    Ok(true)
}

impl<R: RowStore> Crew<R> {
    /// A crew that has made no turn yet. Where there is no memory, the site comes back.
    pub(crate) fn make(alloc: Global, site: Site<R>, origin: &SiteName) -> Result<Crew<R>, Site<R>>
        requires { CanPassInAnyOrder origin.now site }
        ensures opened { IfOk result (λ crew. crew.opened ≡ site) }
        ensures origin { IfOk result (λ crew. crew.origin ≡ origin.now) }
        ensures turns { IfOk result (λ crew. crew.turns ≡ []) }
        ensures err { IfErr result (λ back. back ≡ site) }
    {
        let Ok(schema) = shared_schema(alloc, &site) else {
            return Err(site);
        };
        let opened = Snapshot::of(&site);
        let site = match Box::new(alloc, site) {
            Ok(site) => site,
            Err(refused) => return Err(refused.value),
        };
        Ok(Crew {
            site,
            origin: *origin,
            schema,
            opened,
            turns: TurnLog::new(alloc),
            claims: Claims::new(),
        })
    }

    // Claims a position for an applier; None where nothing is free, or where there is no memory.
    fn next(&mut self, alloc: Global, applier: u32) -> Option<Claim>
        requires applier { applier < 8 }
        ensures opened { self.new.opened ≡ self.old.opened }
        ensures origin { self.new.origin ≡ self.old.origin }
        ensures turns { self.new.turns ≡ self.old.turns }
        ensures claim { IfSome result (IsClaimAt self.new.origin (site_after_crew self.new.origin self.new.turns self.new.opened)) }
    {
        let position = self.claims.next(&self.site, &self.origin, applier)?;
        claimed(&self.site, alloc, &self.schema, &self.origin, position)
    }

    /// Claims a position for an applier, in a turn that applies nothing; None where nothing is free, or where there is no
    /// memory.
    pub(crate) fn claim(&mut self, alloc: Global, applier: u32) -> Option<Claim>
        requires few { length self.old.turns + 1 < 2 ^ 64 }
        requires applier { applier < 8 }
        ensures opened { self.new.opened ≡ self.old.opened }
        ensures origin { self.new.origin ≡ self.old.origin }
        ensures turn { self.new.turns ≡ self.old.turns ++ None ∷ [] }
        ensures claim { IfSome result (IsClaimAt self.new.origin (site_after_crew self.new.origin self.new.turns self.new.opened)) }
    {
        self.turns.pass();
        self.next(alloc, applier)
    }

    // Puts in what an applier evaluated, in one turn, and answers whether there was memory. A position that isn't ready any
    // more is let go.
    fn install(&mut self, alloc: Global, applier: u32, done: Evaluated) -> bool
        requires few { length self.old.turns + 1 < 2 ^ 64 }
        requires applier { applier < 8 }
        requires earlier { IsOfEarlierClaim self.old done }
        ensures opened { self.new.opened ≡ self.old.opened }
        ensures origin { self.new.origin ≡ self.old.origin }
        ensures turn { (turn : Option ℕ) × (self.new.turns ≡ self.old.turns ++ turn ∷ []) }
    {
        support_outlasts_independent_transactions();
        let position = done.position;
        self.claims.leave(applier);
        let Ok(()) = self.turns.reserve() else {
            self.turns.pass();
            return false;
        };
        match put_in(&mut self.site, alloc, &self.origin, done) {
            Ok(true) => {
                self.turns.apply(position);
                true
            }
            Ok(false) => {
                self.turns.pass();
                true
            }
            Err(NoMemory) => {
                self.turns.pass();
                false
            }
        }
    }

    /// Puts in what an applier evaluated, and claims the next position for it in the same turn; None where nothing is free, or
    /// where there is no memory.
    pub(crate) fn go_on(&mut self, alloc: Global, applier: u32, done: Evaluated) -> Option<Claim>
        requires few { length self.old.turns + 1 < 2 ^ 64 }
        requires applier { applier < 8 }
        requires earlier { IsOfEarlierClaim self.old done }
        ensures opened { self.new.opened ≡ self.old.opened }
        ensures origin { self.new.origin ≡ self.old.origin }
        ensures turn { (turn : Option ℕ) × (self.new.turns ≡ self.old.turns ++ turn ∷ []) }
        ensures claim { IfSome result (IsClaimAt self.new.origin (site_after_crew self.new.origin self.new.turns self.new.opened)) }
    {
        if self.install(alloc, applier, done) {
            self.next(alloc, applier)
        } else {
            None
        }
    }

    /// The site, after the turns that were made.
    pub(crate) fn into_site(self) -> Site<R>
        ensures site { result ≡ self.site }
        ensures crew { IsCrew self }
    {
        Box::into_inner(self.site)
    }
}
