//! The phases of the jobs that are held, by number and in order of issue.

ghost use Rattle.std.specs.Prelude.{◌≡◌, ◌<◌, Option, Some, None, [], ◌∷◌, ◌++◌, length, filter, nat_eq, is_some, IfOk, OnOk, OnErr, IsSome};
ghost use Rattle.std.specs.Option.{option_copied};
ghost use Rattle.indexmap.specs.IndexMap.{IsUnique, get, insert_entry};
ghost use Rattle.effects.specs.Records.{deed_of};
ghost use Rattle.effects.specs.Stores.{Puts, fault_of};
ghost use Rattle.job_table.specs.Jobs.{phase_of, with_phase, without, states, Below};
ghost use Rattle.job_table.specs.Places.{held_in, has_phase};
ghost use Rattle.job_table.specs.Remade.{first_marked};
ghost use Rattle.job_table.specs.Steps.{most_jobs};

use crate::entries::NumberedStates;
use crate::job::{Phase, is_marked, state_of};
use effects::{Effect, NotStored, Store};
use indexmap::IndexMap;
use indexmap::map::Entry;
use os_io::Memory;
use std::alloc::{AllocError, Global};
use std::marker::Model;

/// The phases of the jobs that are held. Contracts see the jobs in order of issue, each behind its number.
#[derive(Drop)]
pub(crate) struct Phases {
    /// In order of issue. A job that is given up keeps its place and loses its phase, so that none behind it moves; the places
    /// that are empty go together, once they are more than half.
    places: IndexMap<u64, Option<Phase>>,
    /// How many places have a phase.
    held: usize,
}

impl Model for Phases {
    ghost use Rattle.std.specs.Prelude.{◌≡◌, length, nat_eq};
    ghost use Rattle.indexmap.specs.IndexMap.{IsUnique};
    ghost use Rattle.job_table.specs.Jobs.{HeldJobs};
    ghost use Rattle.job_table.specs.Places.{held_in};

    ghost Value = { HeldJobs };

    ghost view = { λ p. held_in p.places.entries };

    ghost invariant = { λ p. IsUnique nat_eq p.places × (p.held ≡ length (held_in p.places.entries)) };
}

/// Gives a place another content, and tells the one before.
fn fill(
    places: &mut IndexMap<u64, Option<Phase>>,
    number: u64,
    content: Option<Phase>,
) -> Option<Phase>
    requires { IsSome (get nat_eq places.old number) }
    ensures places { places.new.entries ≡ insert_entry nat_eq places.old.entries number content }
    ensures before { get nat_eq places.old number ≡ Some result }
    ensures unique { IsUnique nat_eq places.new }
{
    match places.insert(number, content) {
        Ok(Some(before)) => before,
        Ok(None) => unreachable!(),
        Err(_) => unreachable!(),
    }
}

/// Lets the places that are empty go, where they are more than half or one has this number, which no job has.
fn sweep(places: &mut IndexMap<u64, Option<Phase>>, held: usize, number: u64)
    requires new { phase_of number (held_in places.old.entries) ≡ None }
    requires held { held ≡ length (held_in places.old.entries) }
    requires unique { IsUnique nat_eq places.old }
    ensures same { held_in places.new.entries ≡ held_in places.old.entries }
    ensures new { get nat_eq places.new number ≡ None }
    ensures unique { IsUnique nat_eq places.new }
{
    if places.len() - held > held || places.contains_key(&number) {
        places.retain(
            |_number: &u64, place: &mut Option<Phase>| -> bool
                ensures { (result ≡ is_some place.old) × (place.new ≡ place.old) }
            { place.is_some() },
        );
    }
}

/// Adds a place behind all others, once an effect is stored. The memory for it is taken before.
fn append<S: Store>(
    places: &mut IndexMap<u64, Option<Phase>>,
    number: u64,
    phase: Phase,
    effect: &Effect,
    store: &mut S,
) -> Result<Result<(), NotStored>, Memory>
    requires new { get nat_eq places.old number ≡ None }
    requires unique { IsUnique nat_eq places.old }
    ensures ok { IfOk result (λ put. OnOk put (places.new.entries ≡ places.old.entries ++ (number, Some phase) ∷ [])) }
    ensures refused { IfOk result (λ put. OnErr put (places.new.entries ≡ places.old.entries)) }
    ensures put { IfOk result (λ put. Puts S.keeps S.passes S.too_long S.broken S.faults (deed_of effect.now) store.old (fault_of put) store.new) }
    ensures lost { OnErr result ((places.new.entries ≡ places.old.entries) × (store.new ≡ store.old)) }
    ensures unique { IsUnique nat_eq places.new }
{
    match places.entry(number) {
        Ok(Entry::Vacant(place)) => match store.put(effect) {
            Ok(()) => {
                place.insert(Some(phase));
                Ok(Ok(()))
            }
            Err(fault) => Ok(Err(fault)),
        },
        Ok(Entry::Occupied(_)) => unreachable!(),
        Err(_) => Err(AllocError),
    }
}

impl Phases {
    pub(crate) fn new(alloc: Global) -> Phases
        ensures { result ≡ [] }
    {
        Phases {
            places: IndexMap::new(alloc),
            held: 0,
        }
    }

    /// How many jobs are held.
    pub(crate) fn len(&self) -> usize
        ensures { result ≡ length self.now }
    {
        self.held
    }

    /// The phase of a job.
    pub(crate) fn get(&self, number: u64) -> Option<&Phase>
        ensures { option_copied result ≡ phase_of number self.now }
    {
        match self.places.get(&number) {
            Some(Some(phase)) => Some(phase),
            Some(None) => None,
            None => None,
        }
    }

    /// Puts a job that is held into another phase, and gives the one before.
    pub(crate) fn replace(&mut self, number: u64, phase: Phase) -> Phase
        requires { IsSome (phase_of number self.old) }
        ensures phases { self.new ≡ with_phase number phase self.old }
        ensures before { phase_of number self.old ≡ Some result }
    {
        match fill(&mut self.places, number, Some(phase)) {
            Some(before) => before,
            None => unreachable!(),
        }
    }

    /// Adds a job behind all others, by a number that is above theirs, once an effect is stored. The memory for it is taken before.
    pub(crate) fn append<S: Store>(
        &mut self,
        number: u64,
        phase: Phase,
        effect: &Effect,
        store: &mut S,
    ) -> Result<Result<(), NotStored>, Memory>
        requires above { Below number self.old }
        requires few { length self.old < most_jobs }
        ensures ok { IfOk result (λ put. OnOk put (self.new ≡ self.old ++ (number, phase) ∷ [])) }
        ensures refused { IfOk result (λ put. OnErr put (self.new ≡ self.old)) }
        ensures put { IfOk result (λ put. Puts S.keeps S.passes S.too_long S.broken S.faults (deed_of effect.now) store.old (fault_of put) store.new) }
        ensures lost { OnErr result ((self.new ≡ self.old) × (store.new ≡ store.old)) }
    {
        sweep(&mut self.places, self.held, number);
        match append(&mut self.places, number, phase, effect, store) {
            Ok(Ok(())) => {
                self.held += 1;
                Ok(Ok(()))
            }
            Ok(Err(fault)) => Ok(Err(fault)),
            Err(lost) => Err(lost),
        }
    }

    /// Gives up a job that is held.
    pub(crate) fn take_away(&mut self, number: u64)
        requires { IsSome (phase_of number self.old) }
        ensures { self.new ≡ without number self.old }
    {
        fill(&mut self.places, number, None);
        self.held -= 1;
    }

    /// The states of all, in order of issue.
    pub(crate) fn states(&self, alloc: Global) -> Result<NumberedStates, Memory>
        ensures { IfOk result (λ all. all ≡ states self.now) }
    {
        let mut all = NumberedStates::new(alloc);
        for (number, place) in &self.places {
            if let Some(phase) = place {
                match all.push(*number, state_of(phase)) {
                    Ok(()) => {}
                    Err(lost) => return Err(lost),
                }
            }
        }
        Ok(all)
    }

    /// The number of the first job that runs and was asked to stop.
    pub(crate) fn first_marked(&self) -> Option<u64>
        ensures { result ≡ first_marked self.now }
    {
        for (number, place) in &self.places {
            if let Some(phase) = place {
                if is_marked(phase) {
                    return Some(*number);
                }
            }
        }
        None
    }
}
