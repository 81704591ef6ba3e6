//! What is ready of the origins is applied, until nothing is.
ghost use Rattle.std.specs.Prelude.{◌≡◌, false, IfOk, OnOk};
ghost use Rattle.live_laws.specs.Turns.{NothingReadyOf};
ghost use Rattle.live_streams.specs.Quiet.{IsQuietAt};
ghost use Rattle.live_streams.specs.Crews.{IsSamePart};

use crate::crew::LiveCrew;
use rep_lists::NoMemory;
use rep_schema::RowStore;
use std::alloc::Global;

/// Applies positions of the origin at a place until none is ready, and answers whether there was one.
fn apply_all<R: RowStore>(
    crew: &mut LiveCrew<R>,
    alloc: Global,
    place: usize,
) -> Result<bool, NoMemory>
    ensures part { IsSamePart crew.old crew.new }
    ensures site { IfOk result (λ some. some ≡ false → crew.new.site ≡ crew.old.site) }
    ensures quiet { IfOk result (λ some. some ≡ false → IsQuietAt place crew.new.origins crew.new.site) }
{
    let mut some = false;
    for _ in 0..u64::MAX {
        if !crew.apply_next(alloc, place)? {
            return Ok(some);
        }
        some = true;
    }
    // No machine applies so many positions.
    Err(NoMemory)
}

/// A round: of one origin after the other all is applied that is ready then. It answers whether there was something.
fn round<R: RowStore>(crew: &mut LiveCrew<R>, alloc: Global) -> Result<bool, NoMemory>
    ensures part { IsSamePart crew.old crew.new }
    ensures quiet { IfOk result (λ some. some ≡ false → NothingReadyOf crew.new.origins crew.new.site) }
{
    let mut some = false;
    for place in 0..crew.origin_count() {
        let more = apply_all(crew, alloc, place)?;
        some |= more;
    }
    Ok(some)
}

/// Rounds, until one finds nothing ready.
pub(crate) fn apply_until_quiet<R: RowStore>(
    crew: &mut LiveCrew<R>,
    alloc: Global,
) -> Result<(), NoMemory>
    ensures part { IsSamePart crew.old crew.new }
    ensures quiet { OnOk result (NothingReadyOf crew.new.origins crew.new.site) }
{
    for _ in 0..u64::MAX {
        if !round(crew, alloc)? {
            return Ok(());
        }
    }
    // No machine makes so many rounds.
    Err(NoMemory)
}
