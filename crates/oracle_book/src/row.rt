use scenarios::ScenarioId;

/// What is known of a scenario that stands.
#[derive(Clone, Copy, Drop)]
pub(crate) struct PlainScenario {
    pub(crate) id: ScenarioId,
    /// The version of the newest run that was handed in.
    pub(crate) shown: Option<u64>,
    /// The version at which its run was given up.
    pub(crate) given_up: Option<u64>,
}

impl PlainScenario {
    pub(crate) fn shows(&self, version: u64) -> bool {
        match self.shown {
            Some(shown) => shown >= version,
            None => false,
        }
    }

    pub(crate) fn was_given_up(&self, version: u64) -> bool {
        match self.given_up {
            Some(at) => at == version,
            None => false,
        }
    }
}

/// A task that a worker has.
#[derive(Clone, Copy, Drop)]
pub(crate) struct PlainTicket {
    pub(crate) number: u64,
    pub(crate) id: ScenarioId,
    pub(crate) version: u64,
}
