ghost use Rattle.cluster_state.specs.Laws.{NumbersGiveTheStateBack, EqualNumbersAreEqualStates, ExpectedEndsRise, ExpectedEndsRearrange};

/// The numbers of a state and the plan of its jobs give the state back; so two states with the same
/// numbers, each of which has the same job in both plans, are the same.
pub fn numbers_give_the_state_back()
    ensures back { NumbersGiveTheStateBack }
    ensures equal { EqualNumbersAreEqualStates }
{}

/// In the order of (start + estimate, number) each running job stands once, and each is expected to
/// end before those behind it, or at the same second and has the smaller number.
pub fn by_end_rises_and_keeps_all()
    ensures rising { ExpectedEndsRise }
    ensures all { ExpectedEndsRearrange }
{}
