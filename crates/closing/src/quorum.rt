//! Who closes.
ghost use Rattle.std.specs.Prelude.{◌≡◌, ◌≤◌, ◌+◌, ℕ, true, List, IfOk, OnOk, ◌++◌, length};
ghost use Rattle.vr_log.specs.Members.{is_up};
ghost use Rattle.group_controller.specs.Turns.{Controls, state_of};
ghost use Rattle.run_spec.specs.Closing.{bound_of, closing_view};
ghost use Rattle.world.specs.World.{Holds};
ghost use Rattle.closing.specs.Closing.{HaveViewsUpTo, bound_with, member_in, states_in, up_in, view_above};
ghost use Rattle.closing.specs.Views.{most_view_of_a_closing, views_of_an_attempt};

use app_core::App;
use closing_quorum::first_view;
use group_controller::Controller;
use players::Body;
use std::alloc::{AllocError, Global};
use world::{World, takes_part};

/// The controllers that take part, by number.
pub fn members_up<B: Body, A: App>(
    alloc: Global,
    world: &World<B, A>,
) -> Result<Vec<u8>, AllocError>
    requires { (kinds : List ℕ) × Holds A.law B.sealing world.now kinds }
    ensures { IfOk result (λ up. up.items ≡ up_in world.now) }
{
    let mut up = Vec::new(alloc);
    'counting: for number in 0..world.setup().controllers {
        push_member(&mut up, number, world.controller(number))?;
    }
    Ok(up)
}

/// The least view above all views and promises of the controllers that take part.
pub fn bound_of<B: Body, A: App>(world: &World<B, A>) -> u32
    requires holds { (kinds : List ℕ) × Holds A.law B.sealing world.now kinds }
    requires views { HaveViewsUpTo most_view_of_a_closing world.now.controllers }
    ensures { result ≡ bound_of (states_in world.now.controllers) }
{
    let mut bound = 0;
    'bounding: for number in 0..world.setup().controllers {
        let controller = world.controller(number);
        bound = bound_with(bound, controller);
    }
    bound
}

/// The view of a closing: the least above all views and promises, whose primary takes part.
pub fn closing_view<B: Body, A: App>(world: &World<B, A>, up: &[u8]) -> u32
    requires holds { (kinds : List ℕ) × Holds A.law B.sealing world.now kinds }
    requires views { HaveViewsUpTo most_view_of_a_closing world.now.controllers }
    requires up { up.now ≡ up_in world.now }
    ensures view { result ≡
        closing_view (states_in world.now.controllers) world.now.setup.controllers }
    ensures near { (limit : ℕ) →
        HaveViewsUpTo limit world.now.controllers → result ≤ limit + views_of_an_attempt }
{
    first_view(world.setup().controllers, up, bound_of(world))
}

/// The number of a controller goes behind those that are there, if it takes part.
fn push_member<A: App>(
    up: &mut Vec<u8>,
    number: u8,
    controller: &Controller<A>,
) -> Result<(), AllocError>
    requires { (state_of controller.now).vr.me ≡ number }
    ensures { OnOk result (up.new.items ≡ up.old.items ++ member_in (state_of controller.now)) }
{
    if takes_part(controller) {
        up.push(number)?;
    }
    Ok(())
}

/// The least view above the view and the promise of a controller.
fn above<A: App>(controller: &Controller<A>) -> u32
    requires controls { (kinds : List ℕ) × Controls A.law controller.now kinds }
    requires up { is_up (state_of controller.now).vr ≡ true }
    requires view { (state_of controller.now).vr.view ≤ most_view_of_a_closing }
    requires promise { (state_of controller.now).vr.promise ≤ most_view_of_a_closing }
    ensures { result ≡ view_above (state_of controller.now) }
{
    let view = controller.view().unwrap_or(0);
    view.max(controller.promise()) + 1
}

/// The bound with one controller more.
fn bound_with<A: App>(bound: u32, controller: &Controller<A>) -> u32
    requires controls { (kinds : List ℕ) × Controls A.law controller.now kinds }
    requires view { (state_of controller.now).vr.view ≤ most_view_of_a_closing }
    requires promise { (state_of controller.now).vr.promise ≤ most_view_of_a_closing }
    ensures { result ≡ bound_with bound (state_of controller.now) }
{
    if takes_part(controller) {
        bound.max(above(controller))
    } else {
        bound
    }
}
