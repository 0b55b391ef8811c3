//! The lines of a setup as they are read. One that is past a limit does not fit.
ghost use Rattle.std.specs.Prelude.{◌≡◌};
ghost use Rattle.report.specs.Lines.{GivesLines, line_at};
ghost use Rattle.report.specs.OneLine.{counts_at, ports_in_text, is_port_number, may_join_line, link_words_at, link_in_text, prefix_in_text, rule_words_at, is_asked, rule_at};
ghost use Rattle.report.specs.Reading.{port_counts_at, links_at, rules_at, setup_at};
ghost use Rattle.report.specs.Spelled.{GivesText};

use crate::fault::{Broken, Misfit, on_line};
use crate::spelled::{
    address, after, end_of_line, ended, number8, number16_or_dash, number32, number64,
};
use of_types::{Items, Link, Links, PortCounts, Prefix, Rule, Rules, Setup};
use std::alloc::Global;
use wires::is_taken;

/// The most switches.
const MOST_SWITCHES: u64 = 64;

/// The most ports of a switch.
const MOST_PORTS: u32 = 48;

/// The most wires.
const MOST_LINKS: usize = 1024;

/// The most rules of the firewall.
const MOST_RULES: usize = 16;

/// A setup.
#[tactic(auto, unfolding(crate::specs::Reading::setup_at))]
pub fn setup(alloc: Global, bytes: &[u8]) -> Result<(Setup, &[u8]), Broken>
    ensures { GivesLines (λ x. (x.0, x.1.now)) result (setup_at bytes.now) }
{
    let ((controllers, switches), rest) = on_line(bytes, counts(bytes))?;
    let (ports, rest) = port_counts(alloc, switches, rest)?;
    let (links, rest) = links(alloc, ports.as_slice(), rest)?;
    let (deny, rest) = rules(alloc, rest)?;
    Ok((
        Setup {
            controllers,
            ports,
            links,
            deny,
        },
        rest,
    ))
}

/// How many controllers and switches there are.
#[tactic(auto, unfolding(crate::specs::OneLine::counts_at))]
fn counts(bytes: &[u8]) -> Result<((u8, u64), &[u8]), Misfit>
    ensures { GivesText (λ x. (x.0, x.1.now)) result (counts_at bytes.now) }
{
    let rest = after(b"setup", bytes)?;
    let (controllers, rest) = number8(rest)?;
    let (switches, rest) = number64(rest)?;
    let rest = end_of_line(rest)?;
    if matches!(controllers, 1 | 3 | 5 | 7) && (1..=MOST_SWITCHES).contains(&switches) {
        Ok(((controllers, switches), rest))
    } else {
        Err(Misfit::Text)
    }
}

/// How many ports a switch has.
#[tactic(auto, unfolding(crate::specs::OneLine::ports_in_text))]
fn port_count(switch: u64, bytes: &[u8]) -> Result<(u32, &[u8]), Misfit>
    ensures { GivesText (λ x. (x.0, x.1.now)) result (ports_in_text switch bytes.now) }
{
    let rest = after(b"ports", bytes)?;
    let (named, rest) = number64(rest)?;
    let (count, rest) = number32(rest)?;
    let rest = end_of_line(rest)?;
    if named == switch && (1..=MOST_PORTS).contains(&count) {
        Ok((count, rest))
    } else {
        Err(Misfit::Text)
    }
}

#[tactic(auto, unfolding(crate::specs::Reading::port_counts_at))]
fn port_counts(alloc: Global, switches: u64, bytes: &[u8]) -> Result<(PortCounts, &[u8]), Broken>
    ensures { GivesLines (λ x. (x.0, x.1.now)) result (port_counts_at switches 0 bytes.now) }
{
    let mut counts = PortCounts::new(alloc);
    let mut rest = bytes;
    for switch in 0..switches {
        let (count, after) = on_line(rest, port_count(switch, rest))?;
        counts.push(count)?;
        rest = after;
    }
    Ok((counts, rest))
}

/// Whether a switch has a port.
fn is_port(ports: &[u32], switch: u8, port: u32) -> bool
    ensures { result ≡ is_port_number ports.now switch port }
{
    match ports.get(usize::from(switch)) {
        Some(count) => (1..=*count).contains(&port),
        None => false,
    }
}

/// Whether a wire may stand behind these.
fn may_join(ports: &[u32], before: &[Link], link: &Link) -> bool
    ensures { result ≡ may_join_line ports.now before.now link.now }
{
    is_port(ports, link.switch, link.port)
        && is_port(ports, link.peer, link.peer_port)
        && !(link.switch == link.peer && link.port == link.peer_port)
        && !is_taken(link.switch, link.port, before)
        && !is_taken(link.peer, link.peer_port, before)
}

#[tactic(auto, unfolding(crate::specs::OneLine::link_words_at))]
fn link_words(bytes: &[u8]) -> Result<(Link, &[u8]), Misfit>
    ensures { GivesText (λ x. (x.0, x.1.now)) result (link_words_at bytes.now) }
{
    let rest = after(b"link", bytes)?;
    let (switch, rest) = number8(rest)?;
    let (port, rest) = number32(rest)?;
    let (peer, rest) = number8(rest)?;
    let (peer_port, rest) = number32(rest)?;
    ended(
        Link {
            switch,
            port,
            peer,
            peer_port,
        },
        rest,
    )
}

/// A wire that may stand behind these.
#[tactic(auto, unfolding(crate::specs::OneLine::link_in_text))]
fn fitting_link<'a>(
    ports: &[u32],
    before: &[Link],
    bytes: &'a [u8],
) -> Result<(Link, &'a [u8]), Misfit>
    ensures { GivesText (λ x. (x.0, x.1.now)) result (link_in_text ports.now before.now bytes.now) }
{
    let (link, rest) = link_words(bytes)?;
    if may_join(ports, before, &link) {
        Ok((link, rest))
    } else {
        Err(Misfit::Text)
    }
}

/// A wire behind others.
fn link<'a>(ports: &[u32], before: &[Link], bytes: &'a [u8]) -> Result<(Link, &'a [u8]), Broken>
    ensures { GivesLines (λ x. (x.0, x.1.now)) result (line_at bytes.now (link_in_text ports.now before.now bytes.now)) }
{
    on_line(bytes, fitting_link(ports, before, bytes))
}

#[tactic(auto, unfolding(crate::specs::Reading::links_at))]
fn links<'a>(alloc: Global, ports: &[u32], bytes: &'a [u8]) -> Result<(Links, &'a [u8]), Broken>
    ensures { GivesLines (λ x. (x.0, x.1.now)) result (links_at ports.now bytes.now) }
{
    let mut links = Links::new(alloc);
    let mut rest = bytes;
    for place in 0..MOST_LINKS {
        if !rest.starts_with(b"link") {
            return Ok((links, rest));
        }
        let (link, after) = link(ports, links.as_slice(), rest)?;
        links.push(link)?;
        rest = after;
    }
    if rest.starts_with(b"link") {
        return Err(Broken::Line { left: rest.len() });
    }
    Ok((links, rest))
}

/// Addresses with their length, past which there is no one bit.
#[tactic(auto, unfolding(crate::specs::OneLine::prefix_in_text))]
fn prefix(bytes: &[u8]) -> Result<(Prefix, &[u8]), Misfit>
    ensures { GivesText (λ x. (x.0, x.1.now)) result (prefix_in_text bytes.now) }
{
    let (address, rest) = address(bytes)?;
    let (length, rest) = number8(rest)?;
    if length <= 32 && u64::from(address) % (1u64 << (32 - length)) == 0 {
        Ok((Prefix { address, length }, rest))
    } else {
        Err(Misfit::Text)
    }
}

#[tactic(auto, unfolding(crate::specs::OneLine::rule_words_at))]
fn rule_words(bytes: &[u8]) -> Result<(Rule, &[u8]), Misfit>
    ensures { GivesText (λ x. (x.0, x.1.now)) result (rule_words_at bytes.now) }
{
    let rest = after(b"deny", bytes)?;
    let (proto, rest) = number8(rest)?;
    let (src, rest) = prefix(rest)?;
    let (dst, rest) = prefix(rest)?;
    let (port, rest) = number16_or_dash(rest)?;
    ended(
        Rule {
            proto,
            src,
            dst,
            port,
        },
        rest,
    )
}

/// Whether a rule may name this protocol, and this port beside it.
fn is_asked(proto: u8, port: Option<u16>) -> bool
    ensures { result ≡ is_asked proto port }
{
    match port {
        Some(_) => matches!(proto, 6 | 17),
        None => matches!(proto, 0 | 6 | 17),
    }
}

/// A rule.
#[tactic(auto, unfolding(crate::specs::OneLine::rule_at))]
fn rule(bytes: &[u8]) -> Result<(Rule, &[u8]), Misfit>
    ensures { GivesText (λ x. (x.0, x.1.now)) result (rule_at bytes.now) }
{
    let (rule, rest) = rule_words(bytes)?;
    if is_asked(rule.proto, rule.port) {
        Ok((rule, rest))
    } else {
        Err(Misfit::Text)
    }
}

#[tactic(auto, unfolding(crate::specs::Reading::rules_at, crate::specs::Lines::while_at))]
fn rules(alloc: Global, bytes: &[u8]) -> Result<(Rules, &[u8]), Broken>
    ensures { GivesLines (λ x. (x.0, x.1.now)) result (rules_at bytes.now) }
{
    let mut rules = Rules::new(alloc);
    let mut rest = bytes;
    for place in 0..MOST_RULES {
        if !rest.starts_with(b"deny") {
            return Ok((rules, rest));
        }
        let (rule, after) = on_line(rest, rule(rest))?;
        rules.push(rule)?;
        rest = after;
    }
    if rest.starts_with(b"deny") {
        return Err(Broken::Line { left: rest.len() });
    }
    Ok((rules, rest))
}
