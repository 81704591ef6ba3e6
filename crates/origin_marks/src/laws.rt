//! Laws of the low-water mark.
ghost use Rattle.origin_marks.specs.MarkLaws.{LowWaterIsOne, FinishKeepsLowWater, LowWaterIsComputed};

/// There is one low-water mark, a finish never lowers it, and it is computed from the positions up to the highest.
pub fn low_water_laws()
    ensures one { LowWaterIsOne }
    ensures rises { FinishKeepsLowWater }
    ensures computed { LowWaterIsComputed }
{}
