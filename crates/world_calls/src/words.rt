//! What the words of calls mean at a site, and why they are refused there.
ghost use Rattle.std.specs.Prelude.{◌≡◌, ◌<◌, ◌∷◌, [], not, length, map, IfOk};
ghost use Rattle.rep_values.specs.RefusalSteps.{refused, first_refusal};
ghost use Rattle.rep_schema.specs.Tables.{columns_of};
ghost use Rattle.rep_schema.specs.Kinds.{row_in_range};
ghost use Rattle.rep_declare.specs.Additions.{place_or_zero};
ghost use Rattle.txn_effects.specs.Literals.{values_of};
ghost use Rattle.world_state.specs.ProcDeclaring.{procedure_place};
ghost use Rattle.world_state.specs.CallBlocks.{literals_suit, call_refusal, words_stop, call_of, calls_of};

use crate::literals::{are_in_range, literals_suit, values_of};
use proc_calls::ProcSite;
use proc_state::{ProcCall, Procedure};
use rep_lists::{Items, NoMemory};
use rep_schema::{Schema, columns_of};
use rep_values::{Limit, Literal, Name, Refusal};
use script_parse::CallWords;
use std::alloc::Global;
use world::{find_procedure, procedure_place};
use world_state::CallStop;

/// A block has at most so many calls.
const MOST_CALLS: u32 = 1_000;

/// Why these aren't values of a procedure: their shape, then their ranges.
fn values_refusal(schema: &Schema, procedure: &Procedure, values: &[Literal]) -> Option<Refusal>
    requires { procedure.now.table < length schema.now.tables }
    ensures { result ≡ first_refusal (
        refused (not (literals_suit schema.now (columns_of schema.now procedure.now.table) procedure.now.action values.now)) Refusal.RowShape ∷
        refused (not (row_in_range (values_of values.now))) Refusal.ValueRange ∷ []) }
{
    let columns = columns_of(schema, procedure.table);
    if !literals_suit(schema, columns, &procedure.action, values) {
        return Some(Refusal::RowShape);
    }
    if !are_in_range(values) {
        return Some(Refusal::ValueRange);
    }
    None
}

/// Why the call of a number is refused at a site, if its words are.
fn call_refusal(site: &ProcSite, number: u32, call: &CallWords) -> Option<Refusal>
    ensures { result ≡ call_refusal site.now number call.now }
{
    if number > MOST_CALLS {
        return Some(Refusal::LimitReached(Limit::Statements));
    }
    let Some(procedure) = find_procedure(site.procedures(), &call.procedure) else {
        return Some(Refusal::UnknownName);
    };
    site.laws();
    values_refusal(site.schema(), procedure, call.values.as_slice())
}

/// The first call whose words are refused at a site, from 1, and why.
pub(crate) fn words_stop(site: &ProcSite, calls: &[CallWords]) -> Option<CallStop>
    ensures { result ≡ words_stop site.now 1 calls.now }
{
    let mut number = 1;
    for call in calls {
        if let Some(refusal) = call_refusal(site, number, call) {
            return Some(CallStop {
                call: number,
                refusal,
            });
        }
        number += 1;
    }
    None
}

/// The place of the procedure of a name, 0 where it isn't there.
fn procedure_number(procedures: &[Procedure], name: &Name) -> Result<u32, NoMemory>
    ensures { IfOk result (λ number. number ≡ place_or_zero (procedure_place procedures.now name.now)) }
{
    let Some(place) = procedure_place(procedures, name) else {
        return Ok(0);
    };
    // No machine keeps so many procedures.
    if place > u32::MAX as usize {
        return Err(NoMemory);
    }
    Ok(place as u32)
}

/// The call that words mean at a site.
fn call_of(alloc: Global, site: &ProcSite, call: &CallWords) -> Result<ProcCall, NoMemory>
    ensures { IfOk result (λ made. made ≡ call_of site.now call.now) }
{
    let procedure = procedure_number(site.procedures(), &call.procedure)?;
    let values = values_of(alloc, call.values.as_slice())?;
    Ok(ProcCall { procedure, values })
}

/// The calls that words mean at a site.
pub(crate) fn calls_of(
    alloc: Global,
    site: &ProcSite,
    calls: &[CallWords],
) -> Result<Items<ProcCall>, NoMemory>
    ensures { IfOk result (λ made. made ≡ calls_of site.now calls.now) }
{
    let mut made = Items::new(alloc);
    for call in calls {
        made.push(call_of(alloc, site, call)?)?;
    }
    Ok(made)
}
