ghost use Rattle.std.specs.Prelude.{◌≡◌};
ghost use Rattle.frames.specs.Frames.{once, stands, stands_somewhere};

/// An item, with the places at which it stands: from `from` on, and before `to`. So the last place at
/// which one can stand is 4,294,967,294; a stretch of which `to` isn't above `from` stands nowhere.
#[derive(Clone, Copy, Debug, PartialEq, Eq)]
pub struct Stretch<T: Copy> {
    /// What stands there.
    pub item: T,
    /// The first place.
    pub from: u32,
    /// The place behind the last.
    pub to: u32,
}

impl<T: Copy> Stretch<T> {
    /// An item that stands at place 0 alone.
    pub fn once(item: T) -> Stretch<T>
        ensures { result ≡ once item }
    {
        Stretch {
            item,
            from: 0,
            to: 1,
        }
    }

    /// Whether the item stands at a place.
    pub fn stands(&self, place: u32) -> bool
        ensures { result ≡ stands place self.now }
    {
        self.from <= place && place < self.to
    }

    /// Whether there is a place at which the item stands. A stretch of which this doesn't hold may be left
    /// out of a frame (`laws::empty_stretches_stand_nowhere`).
    pub fn stands_somewhere(&self) -> bool
        ensures { result ≡ stands_somewhere self.now }
    {
        self.from < self.to
    }
}
