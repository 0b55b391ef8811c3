//! The versions of an application.
ghost use Rattle.std.specs.Prelude.{◌≡◌};
ghost use Rattle.app_upgrade.specs.Versions.{kind_in};
ghost use Rattle.app_upgrade.specs.declared.version.Version.TheVariants as version;

use crate::hub::Hub;
use app_core::Part;
use learning_app::{Aging, Learning, Pinned, PlainLearning};
use of_types::{Commands, Event, Setup};
use route_app::Route;
use std::alloc::{AllocError, Global};

/// A part that may be a version of an application.
#[derive(Drop)]
pub enum Version {
    Learning(Learning),
    PlainLearning(PlainLearning),
    Hub(Hub),
    Pinned(Pinned),
    Aging(Aging),
    Route(Route),
}

impl Part for Version {
    ghost kind_of = { kind_in };

    ghost numbers = { elim [
      | version.Learning p ↦ ⟦<Learning as Part>⟧.numbers p
      | version.PlainLearning p ↦ ⟦<PlainLearning as Part>⟧.numbers p
      | version.Hub p ↦ ⟦<Hub as Part>⟧.numbers p
      | version.Pinned p ↦ ⟦<Pinned as Part>⟧.numbers p
      | version.Aging p ↦ ⟦<Aging as Part>⟧.numbers p
      | version.Route p ↦ ⟦<Route as Part>⟧.numbers p
    ] };

    ghost is_fit = { elim [
      | version.Learning p ↦ ⟦<Learning as Part>⟧.is_fit p
      | version.PlainLearning p ↦ ⟦<PlainLearning as Part>⟧.is_fit p
      | version.Hub p ↦ ⟦<Hub as Part>⟧.is_fit p
      | version.Pinned p ↦ ⟦<Pinned as Part>⟧.is_fit p
      | version.Aging p ↦ ⟦<Aging as Part>⟧.is_fit p
      | version.Route p ↦ ⟦<Route as Part>⟧.is_fit p
    ] };

    fn kind(&self) -> u8 {
        match self {
            Version::Learning(part) => part.kind(),
            Version::PlainLearning(part) => part.kind(),
            Version::Hub(part) => part.kind(),
            Version::Pinned(part) => part.kind(),
            Version::Aging(part) => part.kind(),
            Version::Route(part) => part.kind(),
        }
    }

    fn most(&self) -> u32 {
        match self {
            Version::Learning(part) => part.most(),
            Version::PlainLearning(part) => part.most(),
            Version::Hub(part) => part.most(),
            Version::Pinned(part) => part.most(),
            Version::Aging(part) => part.most(),
            Version::Route(part) => part.most(),
        }
    }

    fn start(&mut self, alloc: Global, setup: &Setup) -> Result<(), AllocError> {
        match self {
            Version::Learning(part) => part.start(alloc, setup),
            Version::PlainLearning(part) => part.start(alloc, setup),
            Version::Hub(part) => part.start(alloc, setup),
            Version::Pinned(part) => part.start(alloc, setup),
            Version::Aging(part) => part.start(alloc, setup),
            Version::Route(part) => part.start(alloc, setup),
        }
    }

    fn react(
        &mut self,
        alloc: Global,
        event: &Event,
        out: &mut Commands,
    ) -> Result<bool, AllocError> {
        match self {
            Version::Learning(part) => part.react(alloc, event, out),
            Version::PlainLearning(part) => part.react(alloc, event, out),
            Version::Hub(part) => part.react(alloc, event, out),
            Version::Pinned(part) => part.react(alloc, event, out),
            Version::Aging(part) => part.react(alloc, event, out),
            Version::Route(part) => part.react(alloc, event, out),
        }
    }
}
