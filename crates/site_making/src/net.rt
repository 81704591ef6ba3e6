//! The net that the end of Setup makes.
ghost use Rattle.std.specs.Prelude.{◌≡◌, IfOk};
ghost use Rattle.rep_schema.specs.Sites.{linked_pairs};
ghost use Rattle.net_plan.specs.Directions.{net_of};

use net_plan::Net;
use rep_lists::NoMemory;
use rep_schema::Schema;
use schema_names::linked_pairs;
use std::alloc::Global;

/// The net with a direction between each two sites of which one sends to the other, both ways.
pub fn make_net(alloc: Global, schema: &Schema) -> Result<Net, NoMemory>
    ensures { IfOk result (λ net. net ≡ net_of (linked_pairs schema.now.sites)) }
{
    let pairs = linked_pairs(alloc, schema)?;
    Net::make(alloc, pairs.as_slice())
}
