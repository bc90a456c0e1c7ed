ghost use Rattle.std.specs.Prelude.{◌≡◌, List};
ghost use Rattle.scenarios.specs.declared.placed.Placed.{Placed};
ghost use Rattle.metrics.specs.Part.{PartSums, IsPartOf};

/// Jobs have one part: any two that are theirs are the same. So the part that `Part::merge` makes
/// of the parts of two lists of jobs is the one that `Part::of` makes of both lists, one behind the
/// other.
pub fn jobs_have_one_part()
    ensures { (jobs : List Placed) (v w : PartSums) → IsPartOf jobs v → IsPartOf jobs w → v ≡ w }
{}
