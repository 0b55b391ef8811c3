//! Parts that learn.
ghost use Rattle.std.specs.Prelude.{◌≡◌, ◌≤◌, ◌+◌, ◌++◌, ℕ, nat_lt, not, ◌&&◌, [], ◌∷◌, length, OnOk, if◌then◌else◌};
ghost use Rattle.of_types.specs.Header.{number_at};
ghost use Rattle.app_core.specs.Chain.{flat};
ghost use Rattle.app_core.specs.Learning.{is_single, is_pinned, seen_destination, with_source, forgotten, forgetting_rows, forwarded, hosts_after, learning_commands};

use crate::commands::forward;
use crate::hosts::{HostList, HostMap, Hosts};
use crate::learner::{Ageing, Learner, Pinning, Plainly};
use app_core::{Manner, Part, forgetting_rows, is_single};
use of_types::{
    Commands, Event, Happening, PacketIn, PortStatus, Setup, eth_dst, eth_src, is_switch_up,
};
use std::alloc::{AllocError, Global};
use std::marker::PhantomData;

/// A part that learns, of some kind and over some form of its hosts.
#[derive(Drop)]
pub struct LearningOver<H, L> {
    hosts: H,
    switches: usize,
    learner: PhantomData<L>,
}

/// Learning over a map.
pub type Learning = LearningOver<HostMap, Plainly>;

/// Learning over a list.
pub type PlainLearning = LearningOver<HostList, Plainly>;

/// Learning that pins an address to its port.
pub type Pinned = LearningOver<HostMap, Pinning>;

/// Learning whose rows age.
pub type Aging = LearningOver<HostMap, Ageing>;

/// Whether an address keeps the port that it has.
fn is_pinned<H: Hosts>(manner: Manner, hosts: &H, switch: u8, address: u64) -> bool
    ensures { result ≡ is_pinned manner (H.hosts hosts.now) switch address }
{
    manner.pins && hosts.seen_at(switch, address).is_some()
}

/// Whether the source of a frame is to be learned.
fn is_learned<H: Hosts>(manner: Manner, hosts: &H, switch: u8, address: u64) -> bool
    ensures { result ≡ (is_single address && not (is_pinned manner (H.hosts hosts.now) switch address)) }
{
    is_single(address) && !is_pinned(manner, hosts, switch, address)
}

/// The source of a frame is seen at the port that it came in by, where it is the address of one host.
fn learn_source<H: Hosts>(
    manner: Manner,
    hosts: &mut H,
    switch: u8,
    port: u32,
    source: Option<u64>,
) -> Result<(), AllocError>
    ensures { OnOk result (H.hosts hosts.new ≡ with_source manner (H.hosts hosts.old) switch port source) }
{
    match source {
        Some(address) if is_learned(manner, hosts, switch, address) => hosts.learn(
            switch, address, port,
        ),
        _ => Ok(()),
    }
}

/// Where the destination was seen.
fn seen_destination<H: Hosts>(hosts: &H, switch: u8, destination: Option<u64>) -> Option<u32>
    ensures { result ≡ seen_destination (H.hosts hosts.now) switch destination }
{
    match destination {
        Some(address) => hosts.seen_at(switch, address),
        None => None,
    }
}

/// A packet-in: its source is learned, and then its destination is looked up.
fn on_packet_in<H: Hosts>(
    alloc: Global,
    manner: Manner,
    hosts: &mut H,
    switch: u8,
    packet: &PacketIn,
    out: &mut Commands,
) -> Result<(), AllocError>
    ensures known { OnOk result (H.hosts hosts.new ≡ with_source manner (H.hosts hosts.old) switch packet.now.in_port (number_at 6 6 packet.now.payload)) }
    ensures asked { OnOk result (out.new ≡ out.old ++ forwarded manner switch packet.now.in_port packet.now.payload (seen_destination (H.hosts hosts.new) switch (number_at 6 0 packet.now.payload))) }
{
    let frame = packet.payload.as_slice();
    learn_source(manner, hosts, switch, packet.in_port, eth_src(frame))?;
    let seen = seen_destination(hosts, switch, eth_dst(frame));
    forward(
        alloc,
        manner,
        switch,
        packet.in_port,
        &packet.payload,
        seen,
        out,
    )
}

/// A port changed: the addresses of one that went down are forgotten.
fn on_port_status<H: Hosts>(
    alloc: Global,
    hosts: &mut H,
    switch: u8,
    status: &PortStatus,
    out: &mut Commands,
) -> Result<(), AllocError>
    ensures known { OnOk result (H.hosts hosts.new ≡ (if status.now.up then H.hosts hosts.old else forgotten (H.hosts hosts.old) switch status.now.port)) }
    ensures asked { OnOk result (out.new ≡ out.old ++ (if status.now.up then [] else forgetting_rows switch status.now.port ∷ [])) }
{
    if !status.up {
        hosts.forget(switch, status.port);
        out.push(forgetting_rows(alloc, switch, status.port)?)?;
    }
    Ok(())
}

/// What learning does with what happened at a switch. Of one that is up again all addresses are forgotten.
fn on_happening<H: Hosts>(
    alloc: Global,
    manner: Manner,
    hosts: &mut H,
    switch: u8,
    what: &Happening,
    out: &mut Commands,
) -> Result<(), AllocError>
    ensures known { OnOk result (H.hosts hosts.new ≡ hosts_after manner (H.hosts hosts.old) switch what.now) }
    ensures asked { OnOk result (out.new ≡ out.old ++ learning_commands manner (H.hosts hosts.new) switch what.now) }
{
    match what {
        Happening::PacketIn(packet) => on_packet_in(alloc, manner, hosts, switch, packet, out),
        Happening::PortStatus(_) if is_switch_up(what) => {
            hosts.forget_switch(switch);
            Ok(())
        }
        Happening::PortStatus(status) => on_port_status(alloc, hosts, switch, status, out),
        Happening::FlowRemoved(_) => Ok(()),
    }
}

/// What learning does with an event, where there are so many switches.
fn on_event<H: Hosts>(
    alloc: Global,
    manner: Manner,
    hosts: &mut H,
    switches: usize,
    event: &Event,
    out: &mut Commands,
) -> Result<(), AllocError>
    ensures known { OnOk result (H.hosts hosts.new ≡ (if nat_lt event.now.switch switches then hosts_after manner (H.hosts hosts.old) event.now.switch event.now.what else H.hosts hosts.old)) }
    ensures asked { OnOk result (out.new ≡ out.old ++ (if nat_lt event.now.switch switches then learning_commands manner (hosts_after manner (H.hosts hosts.old) event.now.switch event.now.what) event.now.switch event.now.what else [])) }
{
    if usize::from(event.switch) < switches {
        on_happening(alloc, manner, hosts, event.switch, &event.what, out)?;
    }
    Ok(())
}

impl<H: Hosts, L: Learner> LearningOver<H, L> {
    /// A part that is still to be started: it knows no address and no switch. It takes no memory.
    pub fn new(alloc: Global) -> LearningOver<H, L>
        ensures { ⟦<LearningOver<H, L> as Part>⟧.numbers result ≡ [] }
    {
        LearningOver {
            hosts: H::new(alloc),
            switches: 0,
            learner: PhantomData,
        }
    }
}

impl<H: Hosts, L: Learner> Part for LearningOver<H, L> {
    ghost kind_of = { λ _. L.KIND };

    ghost numbers = { λ l. flat (H.hosts l.hosts) };

    // A setup with so many switches.
    ghost is_fit = { λ l setup. l.switches ≡ length setup.ports };

    fn kind(&self) -> u8 {
        L::KIND
    }

    fn most(&self) -> u32 {
        2
    }

    fn start(&mut self, alloc: Global, setup: &Setup) -> Result<(), AllocError> {
        self.hosts = H::new(alloc);
        self.switches = setup.ports.len();
        Ok(())
    }

    fn react(
        &mut self,
        alloc: Global,
        event: &Event,
        out: &mut Commands,
    ) -> Result<bool, AllocError> {
        on_event(
            alloc,
            L::manner(),
            &mut self.hosts,
            self.switches,
            event,
            out,
        )?;
        Ok(false)
    }
}
