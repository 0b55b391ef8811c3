//! The firewall as a part.
ghost use Rattle.std.specs.Prelude.{◌≡◌, ◌≤◌, ◌<◌, ◌++◌, [], Some, length, slice_get, IfOk, OnOk, OnErr, ◌⊎◌, if◌then◌else◌};
ghost use Rattle.firewall_app.specs.Installed.{IsFirewallOf};
ghost use Rattle.app_core.specs.Firewall.{first_hit, dropping_rows, is_installed, installed_after, firewall_commands};

use crate::denying::{drop_denied_at, drop_installed, first_hit};
use app_core::Part;
use of_types::{Commands, Event, Items, Rule, Rules, Setup, is_switch_up};
use std::alloc::{AllocError, Global};

/// The rules of a setup, and which of them are installed.
#[derive(Drop)]
pub struct Firewall {
    rules: Rules,
    switches: u8,
    installed: Vec<usize>,
}

fn is_installed(installed: &[usize], place: usize) -> bool
    ensures { result ≡ is_installed installed.now place }
{
    installed.iter().any(|p| *p == place)
}

/// Installs the rule at a place, once.
fn install(
    alloc: Global,
    rules: &[Rule],
    switches: u8,
    installed: &mut Vec<usize>,
    place: usize,
    out: &mut Commands,
) -> Result<(), AllocError>
    ensures known { OnOk result (installed.new.items ≡ installed_after installed.old.items (Some place)) }
    ensures kept { OnErr result ((installed.new.items ≡ installed.old.items) ⊎ (installed.new.items ≡ installed_after installed.old.items (Some place))) }
    ensures asked { OnOk result (out.new ≡ out.old ++ (if is_installed installed.old.items place then [] else dropping_rows switches (slice_get rules.now place))) }
{
    if is_installed(installed.as_slice(), place) {
        return Ok(());
    }
    installed.push(place)?;
    drop_denied_at(alloc, rules, place, switches, out)
}

/// The rules of a setup.
fn rules_of(setup: &Setup) -> Result<Rules, AllocError>
    ensures { IfOk result (λ rules. rules ≡ setup.now.deny) }
{
    setup.deny.clone()
}

impl Firewall {
    /// A part that is still to be started: it has no rule and no switch. It takes no memory.
    pub fn new(alloc: Global) -> Firewall
        ensures { ⟦<Firewall as Part>⟧.numbers result ≡ [] }
    {
        Firewall {
            rules: Items::new(alloc),
            switches: 0,
            installed: Vec::new(alloc),
        }
    }
}

#[tactic(auto, unfolding(app_core::specs::Chain::rule_of))]
impl Part for Firewall {
    ghost kind_of = { λ _. 1 };

    ghost numbers = { λ f. f.installed.items };

    // A setup with these rules, and so many switches. Each installed rule is one of them, once.
    ghost is_fit = { λ f setup. IsFirewallOf f.rules f.switches f.installed.items setup };

    fn kind(&self) -> u8 {
        1
    }

    fn most(&self) -> u32 {
        64
    }

    fn start(&mut self, alloc: Global, setup: &Setup) -> Result<(), AllocError> {
        self.rules = rules_of(setup)?;
        self.switches = setup.ports.len() as u8;
        self.installed = Vec::new(alloc);
        Ok(())
    }

    fn react(
        &mut self,
        alloc: Global,
        event: &Event,
        out: &mut Commands,
    ) -> Result<bool, AllocError> {
        if event.switch >= self.switches {
            return Ok(false);
        }
        if is_switch_up(&event.what) {
            let installed = self.installed.as_slice();
            drop_installed(alloc, self.rules.as_slice(), installed, event.switch, out)?;
            return Ok(false);
        }
        let Some(place) = first_hit(self.rules.as_slice(), &event.what) else {
            return Ok(false);
        };
        install(
            alloc,
            self.rules.as_slice(),
            self.switches,
            &mut self.installed,
            place,
            out,
        )?;
        Ok(true)
    }
}
