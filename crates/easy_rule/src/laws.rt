ghost use Rattle.easy_rule.specs.Laws.{ArrivalsUnsettleNobody, NextIsTheFirst};
ghost use Rattle.easy_rule.specs.RuleLaws.{EasyIsARule};

/// Where the first waiting job does not fit, the job that starts next is the first in the order of
/// the later ones that may start, and none where none may.
pub fn next_is_the_first()
    ensures { NextIsTheFirst }
{}

/// What the layers above need of the rule: a decision starts all that may start, so that a settled
/// state stays settled; it keeps what is true of a sound state; it loses no job and makes none.
pub fn easy_is_a_rule()
    ensures { EasyIsARule }
{}

/// Where nobody may start, whoever joins the queue lets none of those before him start, and leaves
/// the shadow as it is.
pub fn arrivals_unsettle_nobody()
    ensures { ArrivalsUnsettleNobody }
{}
