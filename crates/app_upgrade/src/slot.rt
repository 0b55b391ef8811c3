//! The slot.
ghost use Rattle.std.specs.Prelude.{◌≡◌, ◌≤◌, ◌<◌, ◌+◌, ◌-◌, ℕ, [], drop, false, length, map, slice_get, slice_index_or, Ok, Some, IfOk, IfSome, OnOk};
ghost use Rattle.of_types.specs.declared.setup.Setup.{Setup};
ghost use Rattle.app_core.specs.Chain.{slot, learning, versions, most_given, part_next, starting_chain};
ghost use Rattle.app_core.specs.Operator.{asked_version};
ghost use Rattle.app_core.specs.Parts.{PartSteps, AllFit};
ghost use Rattle.app_core.specs.Slot.{at_version};
ghost use Rattle.app_upgrade.specs.Versions.{AreLast, IsOverMap, kind_in};
ghost use Rattle.version_line.specs.Line.{active_of, left_after};

use crate::hub::Hub;
use crate::version::Version;
use app_core::{Part, asked_version, start_parts};
use learning_app::{Aging, Learning, Pinned};
use of_types::{Commands, Event, Setup};
use route_app::Route;
use std::alloc::{AllocError, Global};
use version_line::{VERSIONS, active_of, upgrade};

/// A part that is one version of an application, the active one, until an operator asks for a later one. It holds the active
/// version and those after it; before it is started it may hold none.
#[derive(Drop)]
pub struct Slot {
    parts: Vec<Version>,
    ghost last: { AreLast parts.items },
}

/// A part of each version, still to be started, of which this one is the first.
pub fn versions_from(alloc: Global, first: Version) -> Result<Vec<Version>, AllocError>
    requires { kind_in first ≡ learning }
    ensures kinds { IfOk result (λ parts. map kind_in parts.items ≡ versions) }
    ensures first { IfOk result (λ parts. slice_get parts.items 0 ≡ Some first) }
{
    let mut parts = Vec::with_capacity(alloc, VERSIONS)?;
    parts.push(first)?;
    parts.push(Version::Hub(Hub::new()))?;
    parts.push(Version::Pinned(Pinned::new(alloc)))?;
    parts.push(Version::Aging(Aging::new(alloc)))?;
    parts.push(Version::Route(Route::new(alloc)))?;
    Ok(parts)
}

/// A part of each version, still to be started, of which the first learns over a map.
pub fn all_versions(alloc: Global) -> Result<Vec<Version>, AllocError>
    ensures kinds { IfOk result (λ parts. map kind_in parts.items ≡ versions) }
    ensures first { IfOk result (λ parts. IfSome (slice_get parts.items 0) IsOverMap) }
{
    versions_from(alloc, Version::Learning(Learning::new(alloc)))
}

/// The first of some parts takes an event. Where there is none nothing does.
fn react_first<P: Part>(
    alloc: Global,
    parts: &mut [P],
    event: &Event,
    out: &mut Commands,
) -> Result<bool, AllocError>
    ensures kinds { map P.kind_of parts.new ≡ map P.kind_of parts.old }
    ensures fit { (s : Setup) → AllFit P.is_fit parts.old s → AllFit P.is_fit parts.new s }
    ensures rest { drop 1 (map P.numbers parts.new) ≡ drop 1 (map P.numbers parts.old) }
    ensures step { (s : Setup) → AllFit P.is_fit parts.old s → 0 < length parts.old → IfOk result (λ stops.
        PartSteps (part_next (slice_index_or (map P.kind_of parts.old) 0 0) s (slice_index_or (map P.numbers parts.old) 0 []) event.now) (slice_index_or (map P.numbers parts.new) 0 []) out.old out.new stops) }
    ensures few { (s : Setup) → AllFit P.is_fit parts.old s → OnOk result (length out.new ≤ length out.old + most_given (slice_index_or (map P.kind_of parts.old) 0 0)) }
{
    let Some((first, rest)) = parts.split_first_mut() else {
        return Ok(false);
    };
    let stops = first.react(alloc, event, out)?;
    let _ = rest;
    Ok(stops)
}

/// The active version takes an event.
fn react_active(
    alloc: Global,
    parts: &mut Vec<Version>,
    event: &Event,
    out: &mut Commands,
) -> Result<bool, AllocError>
    requires { AreLast parts.old.items }
    ensures kinds { map kind_in parts.new.items ≡ map kind_in parts.old.items }
    ensures fit { (s : Setup) → AllFit ⟦<Version as Part>⟧.is_fit parts.old.items s → AllFit ⟦<Version as Part>⟧.is_fit parts.new.items s }
    ensures rest { drop 1 (map ⟦<Version as Part>⟧.numbers parts.new.items) ≡ drop 1 (map ⟦<Version as Part>⟧.numbers parts.old.items) }
    ensures step { (s : Setup) → AllFit ⟦<Version as Part>⟧.is_fit parts.old.items s → 0 < length parts.old.items → IfOk result (λ stops.
        PartSteps (part_next (slice_index_or (map kind_in parts.old.items) 0 0) s (slice_index_or (map ⟦<Version as Part>⟧.numbers parts.old.items) 0 []) event.now)
        (slice_index_or (map ⟦<Version as Part>⟧.numbers parts.new.items) 0 []) out.old out.new stops) }
    ensures few { (s : Setup) → AllFit ⟦<Version as Part>⟧.is_fit parts.old.items s → OnOk result (length out.new ≤ length out.old + 64) }
{
    react_first(alloc, parts.as_mut_slice(), event, out)
}

impl Slot {
    ghost use Rattle.app_upgrade.specs.Held.{IsItsParts, parts_in};

    /// A slot of these parts, one of each version in order. It takes no memory.
    pub fn new(parts: Vec<Version>) -> Slot
        requires { map kind_in parts.items ≡ versions }
        ensures version { slice_index_or (⟦<Slot as Part>⟧.numbers result) 0 0 ≡ 0 }
        ensures held { parts_in result ≡ parts.items }
    {
        Slot { parts }
    }

    /// A slot that makes its parts as it starts: those of `all_versions`. It takes no memory before.
    pub fn unstarted(alloc: Global) -> Slot
        ensures { parts_in result ≡ [] }
    {
        Slot {
            parts: Vec::new(alloc),
        }
    }

    /// Which version is active.
    pub fn active(&self) -> u8
        ensures { result ≡ slice_index_or (⟦<Slot as Part>⟧.numbers self.now) 0 0 }
    {
        active_of(self.parts.as_slice()) as u8
    }

    /// How many parts it holds: those of the versions from the active one on.
    pub fn left(&self) -> u32
        ensures later { result ≡ length versions - slice_index_or (⟦<Slot as Part>⟧.numbers self.now) 0 0 }
        ensures held { result ≡ length (parts_in self.now) }
        ensures all { IsItsParts self.now }
    {
        self.parts.len() as u32
    }
}

#[tactic(auto, unfolding(app_core::specs::Chain::rule_of))]
impl Part for Slot {
    ghost use Rattle.app_upgrade.specs.Held.{parts_in};

    ghost kind_of = { λ _. slot };

    ghost numbers = { λ s. at_version (active_of s.parts.items) (slice_index_or (map ⟦<Version as Part>⟧.numbers s.parts.items) 0 []) };

    // A setup that fits each part, of which there is one at least. Those behind the first have not begun.
    ghost is_fit = { λ s setup.
        AllFit ⟦<Version as Part>⟧.is_fit s.parts.items setup
        × (drop 1 (map ⟦<Version as Part>⟧.numbers s.parts.items) ≡ starting_chain (drop 1 (map kind_in s.parts.items)))
        × (0 < length setup.ports)
        × (0 < length s.parts.items) };

    fn kind(&self) -> u8 {
        3
    }

    fn most(&self) -> u32 {
        64
    }

    // A slot has new parts where it had none yet, and where it is started again after an upgrade that dropped some.
    fn start(&mut self, alloc: Global, setup: &Setup) -> Result<(), AllocError> {
        if self.parts.len() < VERSIONS {
            self.parts = all_versions(alloc)?;
        }
        start_parts(alloc, self.parts.as_mut_slice(), setup)
    }

    fn react(
        &mut self,
        alloc: Global,
        event: &Event,
        out: &mut Commands,
    ) -> Result<bool, AllocError>
        ensures kind { ⟦<Slot as Part>⟧.kind_of self.new ≡ ⟦<Slot as Part>⟧.kind_of self.old }
        ensures fit { (s : Setup) → ⟦<Slot as Part>⟧.is_fit self.old s → ⟦<Slot as Part>⟧.is_fit self.new s }
        ensures step { (s : Setup) → ⟦<Slot as Part>⟧.is_fit self.old s → IfOk result (λ stops.
            PartSteps (part_next slot s (⟦<Slot as Part>⟧.numbers self.old) event.now) (⟦<Slot as Part>⟧.numbers self.new) out.old out.new stops) }
        ensures few { (s : Setup) → ⟦<Slot as Part>⟧.is_fit self.old s → OnOk result (length out.new ≤ length out.old + most_given slot) }

        // Where a version is asked for it finds no lack of memory, and the parts before that version are gone.
        ensures asked { (version : ℕ) → asked_version event.now ≡ Some version → result ≡ Ok false }
        ensures dropped { (version : ℕ) → asked_version event.now ≡ Some version → parts_in self.new ≡ left_after version (parts_in self.old) }
    {
        match asked_version(event) {
            Some(asked) => {
                upgrade(&mut self.parts, asked);
                Ok(false)
            }
            None => react_active(alloc, &mut self.parts, event, out),
        }
    }
}
