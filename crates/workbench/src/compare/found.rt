/// What the comparison of some logs gave.
#[derive(Clone, Copy)]
pub(crate) struct Found {
    /// What was counted in all of them together, by kinds.
    counts: [u64; 3],
    pub(crate) differences: u64,
}

impl Found {
    /// No log.
    pub(crate) const NONE: Found = Found {
        counts: [0; 3],
        differences: 0,
    };

    pub(crate) fn add(&mut self, counts: Option<[u64; 3]>) {
        let Some(counts) = counts else {
            self.differences = self.differences.saturating_add(1);
            return;
        };
        for place in 0..3 {
            self.counts[place] = self.counts[place].saturating_add(counts[place]);
        }
    }

    // Whether so much was counted of each kind.
    pub(crate) fn has(&self, fewest: &[u64; 3]) -> bool {
        let [first, second, third] = self.counts;
        first >= fewest[0] && second >= fewest[1] && third >= fewest[2]
    }
}
