// A waiting job as it stands in the candidates by estimate; `place` is where it waits in order of arrival.
use blocks::Ranked;
use scenarios::Job;

#[derive(Clone, Copy)]
pub(crate) struct Candidate {
    pub(crate) job: Job,
    pub(crate) place: usize,
}

impl Ranked for Candidate {
    ghost major = { λ t. t.job.estimate };

    ghost minor = { λ t. t.place };

    ghost weight = { λ t. t.job.size };

    fn major(&self) -> u128 {
        u128::from(self.job.estimate())
    }

    fn minor(&self) -> u64 {
        self.place as u64
    }

    fn weight(&self) -> u64 {
        self.job.size()
    }
}
