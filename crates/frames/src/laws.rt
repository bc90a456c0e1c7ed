ghost use Rattle.frames.specs.Frames.{EmptyStretchesStandNowhere};

/// Stretches that stand nowhere may be left out: the same items stand at each place.
pub fn empty_stretches_stand_nowhere<T: Copy>()
    ensures { EmptyStretchesStandNowhere T }
{}
