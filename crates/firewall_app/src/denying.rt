//! Which frames a rule denies, and the rows that drop them.
ghost use Rattle.std.specs.Prelude.{◌≡◌, ◌++◌, ℕ, List, Some, position, slice_get, option_map, option_to_list, OnOk, IfOk};
ghost use Rattle.of_types.specs.Header.{fields_of};
ghost use Rattle.of_types.specs.Matching.{has_value, matches};
ghost use Rattle.of_types.specs.Setups.{IsRule};
ghost use Rattle.of_types.specs.declared.setup.Rule.{Rule};
ghost use Rattle.app_core.specs.Firewall.{asked_protocol, destination_port, denies, first_hit, asked_port, denied_match, dropping_row, dropping_rows, rows_at};
ghost use Rattle.of_types.specs.declared.setup.Setup.{Setup};

use crate::prefix::{is_within, matched_prefix};
use app_core::flow_mod;
use of_types::{
    ANY_PORT, Actions, Command, Commands, Fields, FlowCommand, Happening, IPV4, Match, Rule, TCP,
    UDP, any_match, fields,
};
use std::alloc::{AllocError, Global};

/// The place of the first rule that denies what happened.
pub fn first_hit(rules: &[Rule], what: &Happening) -> Option<usize>
    ensures { result ≡ first_hit rules.now what.now }
{
    match what {
        Happening::PacketIn(packet) => first_denying(packet.payload.as_slice(), rules),
        Happening::PortStatus(_) | Happening::FlowRemoved(_) => None,
    }
}

/// Each of so many switches drops what the rule at a place denies.
pub fn drop_denied_at(
    alloc: Global,
    rules: &[Rule],
    place: usize,
    switches: u8,
    out: &mut Commands,
) -> Result<(), AllocError>
    ensures { OnOk result (out.new ≡ out.old ++ dropping_rows switches (slice_get rules.now place)) }
{
    match rules.get(place) {
        Some(rule) => drop_denied(alloc, rule, switches, out),
        None => Ok(()),
    }
}

/// A switch drops what each of the installed rules denies, in the order in which they were installed.
pub fn drop_installed(
    alloc: Global,
    rules: &[Rule],
    installed: &[usize],
    switch: u8,
    out: &mut Commands,
) -> Result<(), AllocError>
    ensures { (s : Setup) → s.deny ≡ rules.now → OnOk result (out.new ≡ out.old ++ rows_at s switch installed.now) }
{
    'places: for place in installed {
        drop_at(alloc, rules, *place, switch, out)?;
    }
    Ok(())
}

/// An installed row meets exactly the frames that its rule denies, and drops them, since it has no action.
pub fn drops_denied()
    ensures { (rule : Rule) (frame : List ℕ) → IsRule rule → matches (denied_match rule) (fields_of frame) ≡ denies (fields_of frame) rule }
{}

/// The protocol that a rule names, if any.
fn asked_protocol(rule: &Rule) -> Option<u8>
    ensures { result ≡ asked_protocol rule.now }
{
    if rule.proto == 0 {
        None
    } else {
        Some(rule.proto)
    }
}

/// The port that a rule names, if the rule is of this protocol.
fn asked_port(protocol: u8, rule: &Rule) -> Option<u16>
    ensures { result ≡ asked_port protocol rule.now }
{
    if rule.proto == protocol {
        rule.port
    } else {
        None
    }
}

fn is_ipv4(found: &Fields) -> bool
    ensures { result ≡ has_value (Some IPV4) found.now.eth_type }
{
    found.eth_type == Some(IPV4)
}

fn has_protocol(found: &Fields, rule: &Rule) -> bool
    ensures { result ≡ has_value (asked_protocol rule.now) found.now.ip_proto }
{
    let asked = asked_protocol(rule);
    asked.is_none() || found.ip_proto == asked
}

fn has_port(found: &Fields, rule: &Rule) -> bool
    ensures { result ≡ has_value rule.now.port (destination_port found.now) }
{
    rule.port.is_none() || found.tcp_dst.or(found.udp_dst) == rule.port
}

/// Whether a rule denies a frame with these fields.
fn denies(found: &Fields, rule: &Rule) -> bool
    ensures { result ≡ denies found.now rule.now }
{
    is_ipv4(found)
        && has_protocol(found, rule)
        && is_within(&rule.src, found.ipv4_src)
        && is_within(&rule.dst, found.ipv4_dst)
        && has_port(found, rule)
}

/// The place of the first rule that denies a frame. Without rules nobody looks at it.
fn first_denying(frame: &[u8], rules: &[Rule]) -> Option<usize>
    ensures { result ≡ position (denies (fields_of frame.now)) rules.now }
{
    if rules.is_empty() {
        return None;
    }
    let found = fields(frame);
    rules.iter().position(|rule| denies(&found, rule))
}

/// What a rule denies, as a match.
fn denied_match(rule: &Rule) -> Match
    ensures { result ≡ denied_match rule.now }
{
    Match {
        eth_type: Some(IPV4),
        ip_proto: asked_protocol(rule),
        ipv4_src: matched_prefix(&rule.src),
        ipv4_dst: matched_prefix(&rule.dst),
        tcp_dst: asked_port(TCP, rule),
        udp_dst: asked_port(UDP, rule),
        ..any_match()
    }
}

/// The row of a switch that drops what a rule denies.
fn dropping_row(alloc: Global, rule: &Rule, switch: u8) -> Result<Command, AllocError>
    ensures { IfOk result (λ row. row ≡ dropping_row rule.now switch) }
{
    flow_mod(
        alloc,
        switch,
        1,
        FlowCommand::Add,
        100,
        ANY_PORT,
        denied_match(rule),
        Actions::new(alloc),
    )
}

/// Each of so many switches drops what a rule denies.
#[tactic(auto, using(crate::proofs::Rows::rows_more))]
fn drop_denied(
    alloc: Global,
    rule: &Rule,
    switches: u8,
    out: &mut Commands,
) -> Result<(), AllocError>
    ensures { OnOk result (out.new ≡ out.old ++ dropping_rows switches (Some rule.now)) }
{
    for switch in 0..switches {
        out.push(dropping_row(alloc, rule, switch)?)?;
    }
    Ok(())
}

/// A switch drops what the rule at a place denies.
fn drop_at(
    alloc: Global,
    rules: &[Rule],
    place: usize,
    switch: u8,
    out: &mut Commands,
) -> Result<(), AllocError>
    ensures { OnOk result (out.new ≡ out.old ++ option_to_list (option_map (λ rule. dropping_row rule switch) (slice_get rules.now place))) }
{
    match rules.get(place) {
        Some(rule) => {
            out.push(dropping_row(alloc, rule, switch)?)?;
            Ok(())
        }
        None => Ok(()),
    }
}
