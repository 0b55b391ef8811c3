//! The applications of a group's controllers, life by life.
ghost use Rattle.std.specs.Prelude.{◌≡◌, ◌≤◌, ◌+◌, ℕ, List, length, map, IfOk, OnOk};
ghost use Rattle.app_core.specs.Law.{chain_law};
ghost use Rattle.group_controller.specs.Turns.{AreAlike};
ghost use Rattle.world.specs.World.{AreStocked};
ghost use Rattle.top_call.specs.Play.{AreChains, program_kinds};

use crate::remains::Remains;
use app_chain::LifeOf;
use app_core::{App, Part};
use of_types::LAST_LIFE;
use std::alloc::{AllocError, Global};

/// The most controllers of a group.
pub const CONTROLLERS: usize = 7;

/// The lives of a controller.
pub const LIVES: usize = LAST_LIFE as usize + 1;

/// Puts the life of this number, with these parts, behind the lives of lower numbers. Each controller has its lives in order.
#[tactic(auto, unfolding(app_core::specs::Chain::rule_of))]
pub fn push_life<P: Part>(
    lives: &mut Vec<LifeOf<P>>,
    number: u8,
    parts: Vec<P>,
) -> Result<(), AllocError>
    requires kinds { map P.kind_of parts.items ≡ program_kinds }
    ensures count { OnOk result (length lives.new.items ≡ length lives.old.items + 1) }
    ensures alike { AreAlike (chain_law P.kind_of P.numbers P.is_fit (λ life. life.parts.items)) program_kinds lives.old.items →
        OnOk result (AreAlike (chain_law P.kind_of P.numbers P.is_fit (λ life. life.parts.items)) program_kinds lives.new.items) }
{
    lives.push(LifeOf {
        controller: number / LIVES as u8,
        life: u32::from(number % LIVES as u8),
        parts,
    })?;
    Ok(())
}

/// The applications of the lives of the first controllers, each in order, of those of all controllers. The others are let go.
pub fn shelves_of<A: App>(
    alloc: Global,
    chains: Vec<A>,
    controllers: u8,
    remains: Remains,
) -> Result<Vec<Vec<A>>, AllocError>
    requires chains { (kinds : List ℕ) × AreChains A.law kinds chains.items }
    requires few { controllers ≤ 7 }
    ensures each { IfOk result (λ shelves. length shelves.items ≡ controllers) }
    ensures stocked { (kinds : List ℕ) → AreChains A.law kinds chains.items →
        IfOk result (λ shelves. AreStocked A.law kinds shelves.items) }
{
    let mut shelves = Vec::new(alloc);
    let mut shelf = Vec::new(alloc);
    'shelving: for chain in chains {
        if shelves.len() < usize::from(controllers) {
            shelf.push(chain)?;
            if shelf.len() == LIVES {
                shelves.push(shelf)?;
                shelf = Vec::new(alloc);
            }
        } else {
            remains.let_go(chain);
        }
    }
    Ok(shelves)
}
