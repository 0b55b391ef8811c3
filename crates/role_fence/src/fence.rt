//! The fence, and what it answers to a request for a role.
ghost use Rattle.std.specs.Prelude.{◌≡◌};
ghost use Rattle.role_fence.specs.Fence.{starting_fence, is_stale, may_execute, role_of, told_generation, other_master, as_equal, as_master, as_slave, replies, role_step, Answered};

use of_types::{EQUAL, MASTER, NO_CHANGE, SLAVE, SmallSet};
use std::marker::Model;

/// What a switch answers to a request for a role.
#[derive(Clone, Copy, PartialEq, Eq, Debug)]
pub enum RoleAnswer {
    /// The sender's present role, and the accepted generation: all ones where none was accepted.
    Reply { role: u32, generation: u64 },
    /// The generation that was asked is older than the accepted one.
    Stale { seen: u64, asked: u64 },
    /// There is no such role.
    BadRole,
}

/// What a switch has accepted from controllers: a generation, a master, and who is a slave. Every other
/// sender is equal. It takes no memory.
#[derive(Drop)]
pub struct RoleFence {
    /// The greatest generation that was accepted.
    generation: Option<u64>,
    /// The one controller that is master.
    master: Option<u8>,
    /// Who is a slave.
    slaves: SmallSet,
}

impl Model for RoleFence {
    ghost use Rattle.role_fence.specs.Fence.{Fence};

    ghost Value = { Fence };

    ghost view = { λ a. record { generation = a.generation; master = a.master; slaves = a.slaves } };
}

impl RoleFence {
    /// The fence as it starts.
    pub fn new() -> RoleFence
        ensures { result ≡ starting_fence }
    {
        RoleFence {
            generation: None,
            master: None,
            slaves: SmallSet::new(),
        }
    }

    /// A controller asks for a role, by the number that OpenFlow gives it (OpenFlow 1.3, 7.3.9).
    pub fn role(&mut self, from: u8, role: u32, generation: u64) -> RoleAnswer
        ensures { Answered (role_step self.old from role generation) self.new result }
    {
        match role {
            NO_CHANGE => self.reply(from),
            EQUAL => {
                self.become_equal(from);
                self.reply(from)
            }
            MASTER | SLAVE if is_stale(self.generation, generation) => RoleAnswer::Stale {
                seen: self.told_generation(),
                asked: generation,
            },
            MASTER => {
                self.become_master(from, generation);
                self.reply(from)
            }
            SLAVE => {
                self.become_slave(from, generation);
                self.reply(from)
            }
            _ => RoleAnswer::BadRole,
        }
    }

    /// Whether a command passes: it is the master's, and of the accepted generation.
    pub fn may_execute(&self, from: u8, generation: u64) -> bool
        ensures { result ≡ may_execute self.now from generation }
    {
        self.master == Some(from) && self.generation == Some(generation)
    }

    /// The controller that is master, if there is one.
    pub fn master(&self) -> Option<u8>
        ensures { result ≡ self.now.master }
    {
        self.master
    }

    /// The generation that was accepted last, once one was.
    pub fn generation(&self) -> Option<u64>
        ensures { result ≡ self.now.generation }
    {
        self.generation
    }

    /// The role of a controller.
    fn role_of(&self, from: u8) -> u32
        ensures { result ≡ role_of self.now from }
    {
        if self.master == Some(from) {
            MASTER
        } else if self.slaves.contains(from) {
            SLAVE
        } else {
            EQUAL
        }
    }

    /// The generation that an answer tells.
    fn told_generation(&self) -> u64
        ensures { result ≡ told_generation self.now }
    {
        self.generation.unwrap_or(u64::MAX)
    }

    /// The reply with the present role and the accepted generation.
    fn reply(&self, from: u8) -> RoleAnswer
        ensures { result ≡ (replies self.now from).answer }
    {
        RoleAnswer::Reply {
            role: self.role_of(from),
            generation: self.told_generation(),
        }
    }

    /// A controller becomes one of several.
    fn become_equal(&mut self, from: u8)
        ensures { self.new ≡ as_equal self.old from }
    {
        self.master = other_master(self.master, from);
        self.slaves.remove(from);
    }

    /// A controller becomes master, and the former one a slave.
    fn become_master(&mut self, from: u8, generation: u64)
        ensures { self.new ≡ as_master self.old from generation }
    {
        if let Some(former) = self.master {
            self.slaves.insert(former);
        }
        self.slaves.remove(from);
        self.master = Some(from);
        self.generation = Some(generation);
    }

    /// A controller becomes a slave.
    fn become_slave(&mut self, from: u8, generation: u64)
        ensures { self.new ≡ as_slave self.old from generation }
    {
        self.slaves.insert(from);
        self.master = other_master(self.master, from);
        self.generation = Some(generation);
    }
}

/// A generation is older than the one that was seen, by the signed difference of 64 bits.
fn is_stale(seen: Option<u64>, asked: u64) -> bool
    ensures { result ≡ is_stale seen asked }
{
    match seen {
        None => false,
        Some(seen) => asked.wrapping_sub(seen) >= 1 << 63,
    }
}

/// The master, where it is another controller.
fn other_master(master: Option<u8>, from: u8) -> Option<u8>
    ensures { result ≡ other_master from master }
{
    if master == Some(from) { None } else { master }
}
