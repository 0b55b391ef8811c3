//! One controller that never fails: it runs its application on a list of events.
ghost use Rattle.std.specs.Prelude.{◌≡◌, ◌≤◌, All, length, IfOk, OnOk};
ghost use Rattle.of_types.specs.declared.setup.Setup.{Setup};
ghost use Rattle.app_core.specs.Chain.{concat, given_by, starting_chain, chain_after, reactions, single};

use app_core::App;
use of_types::{Commands, Event};
use std::alloc::{AllocError, Global};

/// The plain sequential controller. It has no views, no buffers, no acknowledgements, no numbers and no failover.
pub struct Single;

impl Single {
    /// The commands for each event, in order. At want of memory the application is to be dropped.
    #[tactic(auto, unfolding(app_core::specs::Chain::reactions))]
    pub fn run<A: App>(
        alloc: Global,
        app: &mut A,
        events: &[Event],
    ) -> Result<Vec<Commands>, AllocError>
        requires { A.law.states app.old ≡ starting_chain (A.law.kinds app.old) }
        ensures kinds { A.law.kinds app.new ≡ A.law.kinds app.old }
        ensures suits { (s : Setup) → A.law.suits app.old s → A.law.suits app.new s }

        // For every setup that the application suits.
        ensures each { (s : Setup) → A.law.suits app.old s → IfOk result (λ lists. lists.items ≡ reactions (A.law.kinds app.old) s events.now) }
        ensures joined { (s : Setup) → A.law.suits app.old s → IfOk result (λ lists. concat lists.items ≡ single (A.law.kinds app.old) s events.now) }
        ensures after { (s : Setup) → A.law.suits app.old s → OnOk result (A.law.states app.new ≡ chain_after (A.law.kinds app.old) s (starting_chain (A.law.kinds app.old)) events.now) }
        ensures few { (s : Setup) → A.law.suits app.old s → IfOk result (λ lists. All (λ list. length list ≤ given_by (A.law.kinds app.old)) lists.items) }
    {
        let mut lists = Vec::new(alloc);
        for event in events {
            lists.push(app.react(alloc, event)?)?;
        }
        Ok(lists)
    }
}
