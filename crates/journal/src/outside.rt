//! Where a run reads from and writes to, and the counts of what failed there.
ghost use Rattle.std.specs.Prelude.{◌≡◌, ◌≤◌, ◌+◌, ◌-◌, ◌^◌, min, ℕ, List, Option, IfOk, OnOk, OnErr};
ghost use Rattle.std.specs.Io.{ReadsAtMost};
ghost use Rattle.std.specs.Io.KnownBytes.{ReadConsumes, WriteAppends};
ghost use Rattle.journal.specs.Causes.{HasCause, TakesSome};
ghost use Rattle.journal.specs.Stables.{Saving, StandsAsItWasOr};

/// A call was not served, and a count of faults rose.
#[derive(Clone, Copy, PartialEq, Eq, Debug)]
pub struct Failed;

/// Where the bytes of a run come from.
pub trait Source {
    /// What is left to be read, where that is known.
    ghost left: { Self → Option (List ℕ) };
    /// How often a read has failed. It never falls.
    ghost faults: { Self → ℕ };

    /// Puts bytes at the front of `into`, at least one, or answers 0. At a nonempty `into` 0 is the
    /// end. After `Failed` what is left is as before. The count of faults rises at `Failed` alone.
    fn read(&mut self, into: &mut [u8]) -> Result<usize, Failed>
        ensures bound { ReadsAtMost result into.new }
        ensures bytes { ReadConsumes (left self.old) (left self.new) result into.new }
        ensures cause { HasCause (faults self.old) (faults self.new) result };
}

/// Where the bytes of a run go to.
pub trait Sink {
    /// What was taken, where that is known.
    ghost taken: { Self → Option (List ℕ) };
    /// How often a write has failed. It never falls.
    ghost faults: { Self → ℕ };

    /// Takes bytes from the front of `from`, at least one of a nonempty one. After `Failed` what was
    /// taken is as before. The count of faults rises at `Failed` alone.
    fn write(&mut self, from: &[u8]) -> Result<usize, Failed>
        ensures some { IfOk result (λ count. TakesSome count from.now) }
        ensures bytes { WriteAppends (taken self.old) (taken self.new) result from.now }
        ensures cause { HasCause (faults self.old) (faults self.new) result };
}

/// What is left of a controller that crashes: the greatest view that it promised, and its life.
pub trait Stable {
    /// The promise and the life that stand, and how often a save has failed. That never falls.
    ghost saving: { Saving Self };

    /// The pair stands from now on. After `Failed` it stands, or the one before does: `load` tells
    /// which. The count of faults rises at `Failed` alone.
    fn save(&mut self, promise: u64, life: u64) -> Result<(), Failed>
        ensures saved { OnOk result (saving.pair self.new ≡ (promise, life)) }
        ensures kept { OnErr result (StandsAsItWasOr (promise, life) (saving.pair self.old) (saving.pair self.new)) }
        ensures cause { HasCause (saving.faults self.old) (saving.faults self.new) result };

    /// The pair that stands.
    fn load(&self) -> (u64, u64)
        ensures { result ≡ saving.pair self.now };
}

/// Counts a fault.
pub fn raise(faults: &mut u64) -> Failed
    ensures count { faults.new ≡ min (faults.old + 1) (2 ^ 64 - 1) }
    ensures later { faults.old ≤ faults.new }
{
    *faults = faults.saturating_add(1);
    Failed
}
