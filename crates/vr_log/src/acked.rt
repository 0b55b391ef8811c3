//! Up to which op each member of a group has acknowledged.
ghost use Rattle.std.specs.Prelude.{◌≡◌, ◌<◌, length, max, replicate, slice_index, slice_set, IfOk};

use std::alloc::{AllocError, Global};
use std::marker::Model;

/// One op for each member, which contracts see as a list.
#[derive(Drop)]
pub struct Acked {
    ops: Vec<u64>,
}

impl Model for Acked {
    ghost use Rattle.std.specs.Prelude.{List, ℕ};

    ghost Value = { List ℕ };

    ghost view = { λ a. a.ops.items };
}

impl Acked {
    /// Nobody has acknowledged anything.
    pub fn new(alloc: Global, members: u8) -> Result<Acked, AllocError>
        ensures { IfOk result (λ acked. acked ≡ replicate members 0) }
    {
        Ok(Acked {
            ops: Vec::from_elem(alloc, 0, usize::from(members))?,
        })
    }

    pub fn as_slice(&self) -> &[u64]
        ensures { result.now ≡ self.now }
    {
        &self.ops
    }

    /// A member has acknowledged at least so much.
    pub fn raise(&mut self, member: u8, op: u64)
        requires { member < length self.old }
        ensures { self.new ≡ slice_set self.old member (max op (slice_index self.old member)) }
    {
        let place = usize::from(member);
        self.ops[place] = op.max(self.ops[place]);
    }
}
