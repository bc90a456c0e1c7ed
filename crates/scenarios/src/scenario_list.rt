ghost use Rattle.std.specs.Prelude.{◌≡◌, length, map, slice_get, None, IfOk, OnOk, OnErr, MatchOption, IsOkUnless};
ghost use Rattle.std.specs.Option.{option_map, ok_or};
ghost use Rattle.scenarios.specs.declared.list_fault.AddFault.TheVariants.{Memory as no_memory};
ghost use Rattle.scenarios.specs.ScenarioList.{IsListing, empty, id_of, add_fault, with_scenario, without_scenario};

use crate::list_fault::{AddFault, NoSuchScenario};
use crate::name::is_name;
use crate::scenario::{MAX_PROCS, Scenario};
use crate::scenario_id::ScenarioId;
use indexmap::IndexMap;
use std::alloc::Allocator;
use std::hash::{BuildHasherDefault, FoldHasher};
use std::marker::Model;
use swf_text::Memory;

/// The most scenarios of a list.
pub const MAX_SCENARIOS: usize = 64;

/// The last id.
const LAST_ID: u64 = 4_294_967_295;

/// Scenarios by name, in the order in which they were added.
///
/// There are at most 64. Their names differ, and no id is given twice.
#[derive(Drop)]
pub struct ScenarioList<A: Allocator + Copy> {
    named: IndexMap<String<A>, (ScenarioId, Scenario), BuildHasherDefault<FoldHasher>, A>,
    next: u64,
    alloc: A,
}

impl<A: Allocator + Copy> Model for ScenarioList<A> {
    ghost use Rattle.std.specs.Prelude.{map};
    ghost use Rattle.std.specs.String.{string_bytes};
    ghost use Rattle.scenarios.specs.ScenarioList.{Listing, IsListing};

    ghost Value = { Listing };

    ghost view = { λ l. record { scenarios = map (λ e. record { name = string_bytes e.0; id = e.1.0; scenario = e.1.1 }) l.named.entries; next = l.next } };

    ghost invariant = { λ l. IsListing (record { scenarios = map (λ e. record { name = string_bytes e.0; id = e.1.0; scenario = e.1.1 }) l.named.entries; next = l.next }) };
}

impl<A: Allocator + Copy> ScenarioList<A> {
    /// A list without scenarios. Takes no memory.
    pub fn new(alloc: A) -> ScenarioList<A>
        ensures { result ≡ empty }
    {
        ScenarioList {
            named: IndexMap::new(alloc),
            next: 1,
            alloc,
        }
    }

    /// How many scenarios stand in the list, at most 64.
    pub fn len(&self) -> usize
        ensures value { result ≡ length self.now.scenarios }
        ensures listing { IsListing self.now }
    {
        self.named.len()
    }

    /// The id of the scenario with this name. Takes no memory.
    pub fn id_of(&self, name: &str) -> Option<ScenarioId>
        ensures { result ≡ id_of name.now self.now }
    {
        match self.named.get(name) {
            Some(row) => Some(row.0),
            None => None,
        }
    }

    /// The name and the id of the scenario at a place, and the scenario itself, counted from 0; None
    /// from the length on. Takes no memory.
    pub fn at(&self, place: usize) -> Option<(&str, ScenarioId, Scenario)>
        ensures value { option_map (λ r. record { name = r.0.now; id = r.1; scenario = r.2 }) result ≡ slice_get self.now.scenarios place }
        ensures listing { IsListing self.now }
    {
        match self.named.get_index(place) {
            Some((name, row)) => Some((name.as_str(), row.0, row.1)),
            None => None,
        }
    }

    fn add_fault(&self, name: &str) -> Option<AddFault>
        ensures { result ≡ add_fault name.now self.now }
    {
        if !is_name(name.as_bytes()) {
            return Some(AddFault::BadName);
        }
        if self.id_of(name).is_some() {
            return Some(AddFault::NameTaken);
        }
        if self.named.len() >= MAX_SCENARIOS || self.next > LAST_ID {
            return Some(AddFault::TooMany);
        }
        None
    }

    fn put(&mut self, name: &str, scenario: Scenario) -> Result<ScenarioId, Memory>
        requires { add_fault name.now self.old ≡ None }
        ensures id { IfOk result (λ id. id ≡ self.old.next) }
        ensures added { OnOk result (self.new ≡ with_scenario name.now scenario self.old) }
        ensures kept { OnErr result (self.new ≡ self.old) }
    {
        prove!(scenario.procs() <= MAX_PROCS);
        let id = ScenarioId::of(self.next as u32);
        let key = String::from_str(self.alloc, name)?;
        self.named.insert(key, (id, scenario))?;
        self.next += 1;
        Ok(id)
    }

    /// Adds a scenario behind the others, and returns its id. A refusal leaves the list as it was,
    /// and is refused with the first of these: BadName for what `is_name` doesn't take, NameTaken for
    /// the name of a scenario that stands, TooMany where 64 stand or the last id is used, Memory.
    pub fn add(&mut self, name: &str, scenario: Scenario) -> Result<ScenarioId, AddFault>
        ensures answer { MatchOption (add_fault name.now self.old) (IsOkUnless result no_memory) (λ fault. result ≡ Err fault) }
        ensures id { IfOk result (λ id. id ≡ self.old.next) }
        ensures added { OnOk result (self.new ≡ with_scenario name.now scenario self.old) }
        ensures kept { OnErr result (self.new ≡ self.old) }
    {
        if let Some(fault) = self.add_fault(name) {
            return Err(fault);
        }
        Ok(self.put(name, scenario)?)
    }

    /// Takes the scenario with this name out of the list, and returns its id; the later ones move
    /// up. Where there is none, the list stays as it was. Takes no memory.
    pub fn drop_named(&mut self, name: &str) -> Result<ScenarioId, NoSuchScenario>
        ensures answer { result ≡ ok_or (id_of name.now self.old) (record {}) }
        ensures dropped { self.new ≡ without_scenario name.now self.old }
    {
        match self.named.shift_remove(name) {
            Some(row) => Ok(row.0),
            None => Err(NoSuchScenario),
        }
    }

    /// The same list once more, on the allocator that this one keeps; Memory where a growth is
    /// refused.
    pub fn copy(&self) -> Result<ScenarioList<A>, Memory>
        ensures { IfOk result (λ list. list ≡ self.now) }
    {
        Ok(ScenarioList {
            named: self.named.clone()?,
            next: self.next,
            alloc: self.alloc,
        })
    }
}
