//! A stable pair in memory, some of whose saves fail.
ghost use Rattle.std.specs.Prelude.{◌≡◌, ◌↔◌, ◌-◌, ◌+◌, ◌^◌, min, OnErr, OnOk, IsOk};
ghost use Rattle.journal.specs.declared.journal.SaveResult.TheVariants.{Saved};
ghost use Rattle.journal.specs.Causes.{HasCause};
ghost use Rattle.journal.specs.Stables.{StandsAsItWasOr, pair_of, save_result, standing};

use crate::journal::SaveResult;
use crate::outside::{Failed, Stable, raise};
use std::marker::Model;

/// A save that is to fail: its number, counted from 0, and whether its pair stands all the same.
#[derive(Clone, Copy, PartialEq, Eq, Debug)]
pub struct FailingSave {
    pub number: u64,
    pub keeps_new: bool,
}

/// A stable pair in memory, which contracts see with its faults and its saves.
#[derive(Drop)]
pub struct MemoryStable {
    /// The pair that stands.
    promise: u64,
    /// The pair that stands.
    life: u64,
    /// How many saves have failed.
    faults: u64,
    /// Which saves fail, and how.
    failing: Vec<FailingSave>,
    /// How many saves were made.
    made: u64,
}

impl Model for MemoryStable {
    ghost use Rattle.journal.specs.Stables.{Pair};

    ghost Value = { Pair };

    ghost view = { λ s. record { promise = s.promise; life = s.life; faults = s.faults; failing = s.failing.items; made = s.made } };
}

/// What becomes of the save of a number.
fn save_result(failing: &[FailingSave], number: u64) -> SaveResult
    ensures { result ≡ save_result failing.now number }
{
    let Some((first, rest)) = failing.split_first() else {
        return SaveResult::Saved;
    };
    if first.number != number {
        return save_result(rest, number);
    }
    if first.keeps_new {
        SaveResult::KeptNew
    } else {
        SaveResult::KeptOld
    }
}

impl MemoryStable {
    /// No view is promised, and the life is the first. These saves fail.
    pub fn new(failing: Vec<FailingSave>) -> MemoryStable
        ensures { result ≡ record { promise = 0; life = 0; faults = 0; failing = failing.items; made = 0 } }
    {
        MemoryStable {
            promise: 0,
            life: 0,
            faults: 0,
            failing,
            made: 0,
        }
    }

    /// How often a save has failed.
    pub fn faults(&self) -> u64
        ensures { result ≡ self.now.faults }
    {
        self.faults
    }

    /// The pair stands from now on.
    fn put(&mut self, promise: u64, life: u64)
        ensures { self.new ≡ record self.old { promise = promise; life = life } }
    {
        self.promise = promise;
        self.life = life;
    }

    /// Counts a save, and tells what becomes of it.
    fn next_result(&mut self) -> SaveResult
        ensures result { result ≡ save_result self.old.failing self.old.made }
        ensures counted { self.new ≡ record self.old { made = min (self.old.made + 1) (2 ^ 64 - 1) } }
    {
        let result = save_result(&self.failing, self.made);
        self.made = self.made.saturating_add(1);
        result
    }
}

impl Stable for MemoryStable {
    ghost saving = { record { pair = pair_of; faults = λ s. s.faults } };

    fn save(&mut self, promise: u64, life: u64) -> Result<(), Failed>
        ensures saved { OnOk result (pair_of self.new ≡ (promise, life)) }
        ensures kept { OnErr result (StandsAsItWasOr (promise, life) (pair_of self.old) (pair_of self.new)) }
        ensures cause { HasCause self.old.faults self.new.faults result }

        ensures fails { IsOk result ↔ (save_result self.old.failing self.old.made ≡ Saved) }
        ensures pair { pair_of self.new ≡ standing (save_result self.old.failing self.old.made) (promise, life) (pair_of self.old) }
        ensures counted { self.new.made ≡ min (self.old.made + 1) (2 ^ 64 - 1) }
        ensures same { self.new.failing ≡ self.old.failing }
    {
        match self.next_result() {
            SaveResult::Saved => {
                self.put(promise, life);
                Ok(())
            }
            SaveResult::KeptOld => Err(raise(&mut self.faults)),
            SaveResult::KeptNew => {
                self.put(promise, life);
                Err(raise(&mut self.faults))
            }
        }
    }

    fn load(&self) -> (u64, u64) {
        (self.promise, self.life)
    }
}
