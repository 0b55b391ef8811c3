//! A scenario as it is written: each part has its shape, and no number has been held against a limit.

use journal::Actor;
use of_types::{Items, Octets};

/// What is written of a scenario.
#[derive(Drop)]
pub struct Written {
    pub controllers: u64,
    pub switches: Items<WrittenSwitch>,
    pub links: Items<WrittenLink>,
    pub deny: Items<WrittenRule>,
    pub steps: Items<WrittenStep>,
}

/// How many ports a switch has.
#[derive(Clone, Copy)]
pub struct WrittenSwitch {
    pub ports: u64,
}

/// The two ends of a wire.
#[derive(Clone, Copy)]
pub struct WrittenLink {
    pub switch: u64,
    pub port: u64,
    pub peer: u64,
    pub peer_port: u64,
}

/// The four bytes of an address, and how many of its first bits count.
#[derive(Clone, Copy)]
pub struct WrittenPrefix {
    pub bytes: [u64; 4],
    pub length: u64,
}

/// A rule of the firewall.
#[derive(Clone, Copy)]
pub struct WrittenRule {
    pub proto: u64,
    pub src: WrittenPrefix,
    pub dst: WrittenPrefix,
    pub port: Option<u64>,
}

/// A step. The number of a named actor is at most 255, which no setup has.
#[derive(Drop)]
pub enum WrittenStep {
    Frame {
        switch: u64,
        port: u64,
        bytes: Octets,
    },
    Port {
        switch: u64,
        port: u64,
        up: bool,
    },
    Tick {
        actor: Actor,
        times: u64,
    },
    Draw {
        actor: Actor,
        choice: u64,
        keep: bool,
        times: u64,
    },
    Lose {
        actor: Actor,
        choice: u64,
        times: u64,
    },
    Suspect {
        controller: u64,
        view: u64,
    },
    Crash {
        controller: u64,
    },
    RestartController {
        controller: u64,
    },
    RestartSwitch {
        switch: u64,
    },
}
