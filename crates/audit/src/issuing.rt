//! What the controller that never fails issues, with lives and numbers.
ghost use Rattle.std.specs.Prelude.{◌≡◌, ◌∷◌, ◌++◌, ◌&&◌, [], ℕ, nat_eq, get_or, replicate, List, map, if◌then◌else◌, IfOk, OnOk};
ghost use Rattle.of_types.specs.declared.message.Event.{Event};
ghost use Rattle.app_core.specs.declared.issued.Issued.{Issued};
ghost use Rattle.app_core.specs.Chain.{concat};
ghost use Rattle.app_core.specs.Issued as issued;
ghost use Rattle.audit.specs.Names.{issued_name};
ghost use Rattle.audit.specs.Issuing.{count_of, HoldsOrders, IsIssuer, IsIssuedOne};

use crate::counting::add;
use crate::lives::Lives;
use crate::named::{Name, Named};
use indexmap::IndexMap;
use of_types::{Command, Commands, Event, Items, Order};
use std::alloc::{AllocError, Global};
use std::marker::Model;

/// How many commands each life of a switch has.
#[derive(Drop)]
pub struct Counts {
    counts: IndexMap<(u8, u32), u64>,
}

impl Model for Counts {
    ghost use Rattle.std.specs.Prelude.{List, ℕ};

    ghost Value = { List ((ℕ × ℕ) × ℕ) };

    ghost view = { λ c. c.counts.entries };
}

impl Counts {
    fn new(alloc: Global) -> Counts
        ensures { result ≡ [] }
    {
        Counts {
            counts: IndexMap::new(alloc),
        }
    }

    fn of(&self, switch: u8, life: u32) -> u64
        ensures { result ≡ count_of self.now switch life }
    {
        match self.counts.get(&(switch, life)) {
            Some(count) => *count,
            None => 0,
        }
    }

    fn put(&mut self, switch: u8, life: u32, count: u64) -> Result<(), AllocError>
        ensures { OnOk result ((s l : ℕ) → count_of self.new s l ≡ (if nat_eq switch s && nat_eq life l then count else count_of self.old s l)) }
    {
        self.counts.insert((switch, life), count)?;
        Ok(())
    }
}

/// What the next command gets its name by, and the orders of the commands so far.
#[derive(Drop)]
pub struct Issuer {
    lives: Lives,
    counts: Counts,
    orders: Named<Order>,
}

impl Issuer {
    fn new(alloc: Global) -> Issuer
        ensures { IsIssuer [] [] result }
    {
        Issuer {
            lives: Lives::new(),
            counts: Counts::new(alloc),
            orders: Named::new(alloc),
        }
    }

    /// A command gets the present life of its switch, and the next number there.
    fn issue(&mut self, command: Command) -> Result<Name, AllocError>
        ensures { IfOk result (λ name. IsIssuedOne self.old command name self.new) }
    {
        let switch = command.switch;
        let life = self.lives.of(usize::from(switch));
        let number = self.counts.of(switch, life);
        let name = (usize::from(switch), life, number);
        self.counts.put(switch, life, add(number, 1)?)?;
        self.orders.note(name, command.order)?;
        Ok(name)
    }

    /// The commands for one event.
    fn issue_each(&mut self, alloc: Global, commands: Commands) -> Result<Items<Name>, AllocError>
        ensures { (events : List Event) (before : List Issued) → IsIssuer events before self.old →
            IfOk result (λ names. (names ≡ map issued_name (issued.issue_each events before commands)) × IsIssuer events (before ++ issued.issue_each events before commands) self.new) }
    {
        let mut names = Items::new(alloc);
        'commands: for command in commands.into_vec() {
            names.push(self.issue(command)?)?;
        }
        Ok(names)
    }

    /// An event, and the commands for it.
    fn react(
        &mut self,
        alloc: Global,
        event: &Event,
        commands: Commands,
    ) -> Result<Items<Name>, AllocError>
        ensures { (past : List Event) (before : List Issued) → IsIssuer past before self.old →
            IfOk result (λ names. (names ≡ map issued_name (issued.issue_each (past ++ event.now ∷ []) before commands))
            × IsIssuer (past ++ event.now ∷ []) (before ++ issued.issue_each (past ++ event.now ∷ []) before commands) self.new) }
    {
        self.lives.begin(event.switch, event.life);
        self.issue_each(alloc, commands)
    }
}

/// What was issued: the names of the commands for each event, and the orders by name.
#[derive(Drop)]
pub struct AllIssued {
    pub names: Items<Items<Name>>,
    pub orders: Named<Order>,
}

/// What is issued for these events, by the commands for each.
pub fn issue_all(
    alloc: Global,
    events: &[Event],
    lists: Vec<Commands>,
) -> Result<AllIssued, AllocError>
    ensures names { IfOk result (λ all. all.names ≡ map (λ list. map issued_name list) (issued.issue_all [] [] events.now lists.items)) }
    ensures orders { IfOk result (λ all. HoldsOrders (concat (issued.issue_all [] [] events.now lists.items)) all.orders) }
{
    let mut issuer = Issuer::new(alloc);
    let mut names = Items::new(alloc);
    let mut lists = lists.into_iter();
    'events: for event in events {
        let Some(commands) = lists.next() else {
            return Ok(AllIssued {
                names,
                orders: issuer.orders,
            });
        };
        names.push(issuer.react(alloc, event, commands)?)?;
    }
    Ok(AllIssued {
        names,
        orders: issuer.orders,
    })
}
