//! What is counted of the lives of switches.
ghost use Rattle.std.specs.Prelude.{◌≡◌, ◌<◌, ◌&&◌, ◌∷◌, ◌++◌, ℕ, [], nat_eq, length, get_or, IfOk, OnOk, if◌then◌else◌};
ghost use Rattle.dispatcher.specs.Counted.{counts_in, counts_of, event_place_of};
ghost use Rattle.dispatcher.specs.Ledger.{IsCountedAs, IsRowCountedAs, tally_of, one_more};

use std::alloc::{AllocError, Global};
use std::marker::Model;

/// What is counted of one life of a switch: its events that are processed, the commands that are issued to it, and
/// those of them that are settled.
#[derive(Clone, Copy, PartialEq, Eq, Debug)]
pub(crate) struct Counts {
    pub(crate) processed: u64,
    pub(crate) issued: u64,
    pub(crate) settled: u64,
}

/// Nothing is counted.
const NO_COUNTS: Counts = Counts {
    processed: 0,
    issued: 0,
    settled: 0,
};

/// What is counted once more of a life: an event of it is processed, or a command is issued to it or is settled.
#[derive(Clone, Copy)]
pub(crate) enum Progress {
    Processed,
    Issued,
    Settled,
}

/// How many there were, and what is counted with one more.
fn count_one(counts: Counts, progress: Progress) -> (u64, Counts)
    ensures before { result.0 ≡ tally_of progress counts }
    ensures after { result.1 ≡ one_more progress counts }
{
    let mut after = counts;
    match progress {
        Progress::Processed => {
            after.processed = counts.processed.saturating_add(1);
            (counts.processed, after)
        }
        Progress::Issued => {
            after.issued = counts.issued.saturating_add(1);
            (counts.issued, after)
        }
        Progress::Settled => {
            after.settled = counts.settled.saturating_add(1);
            (counts.settled, after)
        }
    }
}

/// A life of a switch beside what is counted of it.
#[derive(Clone, Copy)]
struct LifeCount {
    life: u32,
    counts: Counts,
}

/// The lives of one switch of which something is counted, in the order in which they came.
#[derive(Drop)]
struct Row {
    lives: Vec<LifeCount>,
}

impl Model for Row {
    ghost use Rattle.std.specs.Prelude.{List};
    ghost use Rattle.dispatcher.specs.declared.counts.LifeCount.{LifeCount};

    ghost Value = { List LifeCount };

    ghost view = { λ row. row.lives.items };
}

impl Row {
    /// The place of a life, or how many there are.
    fn place_of(&self, life: u32) -> usize
        ensures { result ≡ event_place_of self.now life }
    {
        for (place, counted) in self.lives.iter().enumerate() {
            if counted.life == life {
                return place;
            }
        }
        self.lives.len()
    }

    fn of(&self, life: u32) -> Counts
        ensures { result ≡ counts_in self.now life }
    {
        let place = self.place_of(life);
        if place < self.lives.len() {
            self.lives[place].counts
        } else {
            NO_COUNTS
        }
    }

    /// One thing more is counted of a life. It tells how many there were.
    fn count(&mut self, life: u32, progress: Progress) -> Result<u64, AllocError>
        ensures before { IfOk result (λ before. before ≡ tally_of progress (counts_in self.old life)) }
        ensures counted { OnOk result (IsRowCountedAs self.old life (one_more progress (counts_in self.old life)) self.new) }
    {
        let place = self.place_of(life);
        if place < self.lives.len() {
            let (before, counts) = count_one(self.lives[place].counts, progress);
            self.lives[place] = LifeCount { life, counts };
            Ok(before)
        } else {
            let (before, counts) = count_one(NO_COUNTS, progress);
            add(&mut self.lives, LifeCount { life, counts })?;
            Ok(before)
        }
    }
}

/// Appends what is counted of a life. This is rare, and stands apart from counting on.
#[inline(never)]
fn add(lives: &mut Vec<LifeCount>, counted: LifeCount) -> Result<(), AllocError>
    ensures { OnOk result (lives.new.items ≡ lives.old.items ++ counted ∷ []) }
{
    lives.push(counted)?;
    Ok(())
}

/// Makes the rows reach this number. This is rare too.
#[inline(never)]
fn reach(rows: &mut Vec<Row>, number: usize) -> Result<(), AllocError>
    ensures same { (n : ℕ) → get_or rows.new.items n [] ≡ get_or rows.old.items n [] }
    ensures ok { OnOk result (number < length rows.new.items) }
{
    let alloc = *rows.allocator();
    while rows.len() <= number {
        let lives = Vec::new(alloc);
        rows.push(Row { lives })?;
    }
    Ok(())
}

/// The counts of each life of each switch, as far as there are any. Those of a switch stand together, in the row of its number.
#[derive(Drop)]
pub(crate) struct LifeCounts {
    rows: Vec<Row>,
}

impl Model for LifeCounts {
    ghost use Rattle.std.specs.Prelude.{List};
    ghost use Rattle.dispatcher.specs.declared.counts.LifeCount.{LifeCount};

    ghost Value = { List (List LifeCount) };

    ghost view = { λ c. c.rows.items };
}

impl LifeCounts {
    /// Nothing is counted. It takes no memory.
    pub(crate) fn new(alloc: Global) -> LifeCounts
        ensures { result ≡ [] }
    {
        LifeCounts {
            rows: Vec::new(alloc),
        }
    }

    /// The counts of a life of a switch.
    pub(crate) fn of(&self, switch: u8, life: u32) -> Counts
        ensures { result ≡ counts_of self.now switch life }
    {
        let index = usize::from(switch);
        if index < self.rows.len() {
            self.rows[index].of(life)
        } else {
            NO_COUNTS
        }
    }

    /// One thing more is counted of a life of a switch. It tells how many there were.
    #[inline]
    pub(crate) fn count(
        &mut self,
        switch: u8,
        life: u32,
        progress: Progress,
    ) -> Result<u64, AllocError>
        ensures before { IfOk result (λ before. before ≡ tally_of progress (counts_of self.old switch life)) }
        ensures counted { OnOk result (IsCountedAs self.old switch life (one_more progress (counts_of self.old switch life)) self.new) }
    {
        let index = usize::from(switch);
        if index >= self.rows.len() {
            reach(&mut self.rows, index)?;
        }
        self.rows[index].count(life, progress)
    }
}
