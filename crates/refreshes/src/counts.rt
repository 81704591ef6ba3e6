//! What a refresh counts.
ghost use Rattle.std.specs.Prelude.{◌≡◌, ◌+◌, IfOk};
ghost use Rattle.site_state.specs.declared.answers.RefreshCount.{RefreshCount as CountValue};

use rep_lists::NoMemory;
use site_state::RefreshCount;

/// A count with more keys and rows. One that its type can't hold, which so many keys or rows never make, is answered as
/// want of memory.
pub(crate) fn count_more(
    count: RefreshCount,
    keys: u64,
    rows: u64,
) -> Result<RefreshCount, NoMemory>
    ensures { IfOk result (λ (more : CountValue). more ≡ record { keys = count.keys + keys; rows = count.rows + rows }) }
{
    let keys = count.keys.checked_add(keys).ok_or(NoMemory)?;
    let rows = count.rows.checked_add(rows).ok_or(NoMemory)?;
    Ok(RefreshCount { keys, rows })
}
