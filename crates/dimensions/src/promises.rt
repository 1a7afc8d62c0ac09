//! What reading and printing promise, for every input: each function's contract says one thing, and its body nothing.
ghost use Rattle.dimensions.specs.Promises.{RoundsToNearest, TexRounds, ReadsBack, DimensionReadsBack};

/// The digits of a fraction read as the nearest scaled point, ties upward.
pub fn rounds_to_nearest()
    ensures { RoundsToNearest }
{}

/// TeX's loop, section 102 of TeX: The Program, reads every fraction as the same.
pub fn tex_rounds()
    ensures { TexRounds }
{}

/// Every fraction of a point prints as one to five digits, which read back as it.
pub fn reads_back()
    ensures { ReadsBack }
{}

/// Every dimension that is printed reads back as it.
pub fn dimension_reads_back()
    ensures { DimensionReadsBack }
{}
