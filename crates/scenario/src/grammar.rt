//! How each part of a scenario is written. What has another shape is `None`.
ghost use Rattle.std.specs.Prelude.{◌≡◌, IfOk, map, option_map};
ghost use Rattle.std.specs.List.{list_any};
ghost use Rattle.std.specs.Result.{result_ok};
ghost use Rattle.hex.specs.Hex.{decode_of};
ghost use Rattle.serde_json.specs.View.{view};
ghost use Rattle.scenario.specs.Grammar as grammar;

use crate::json::{
    counted, flag_at, flag_or, list, list_at, list_or_none, number, number_at, number_or, only,
    text_at,
};
use crate::written::{WrittenLink, WrittenPrefix, WrittenRule, WrittenStep, WrittenSwitch};
use hex::FromHexError;
use journal::Actor;
use numerals::numeral;
use of_types::Octets;
use serde_json::Value;
use std::alloc::{AllocError, Global};

/// A number that no setup has.
pub const NO_ACTOR: u64 = 255;

/// How a switch is written: `{"ports": number}`.
pub fn switch_of(value: &Value) -> Option<WrittenSwitch>
    ensures { result ≡ grammar.switch_of (view value.now) }
{
    let ports = number_at("ports", value)?;
    only(1, value, WrittenSwitch { ports })
}

/// How a link is written: `[switch, port, switch, port]`.
pub fn link_of(value: &Value) -> Option<WrittenLink>
    ensures { result ≡ grammar.link_of (view value.now) }
{
    let [switch, port, peer, peer_port] = list(value)? else {
        return None;
    };
    Some(WrittenLink {
        switch: number(switch)?,
        port: number(port)?,
        peer: number(peer)?,
        peer_port: number(peer_port)?,
    })
}

/// How a rule of the firewall is written: `{"proto", "src", "dst"}`, and `"port"` if any.
pub fn rule_of(value: &Value) -> Option<WrittenRule>
    ensures { result ≡ grammar.rule_of_json (view value.now) }
{
    let proto = number_at("proto", value)?;
    let src = prefix_at("src", value)?;
    let dst = prefix_at("dst", value)?;
    let port = number_if_any("port", value)?;
    only(
        3 + counted("port", value),
        value,
        WrittenRule {
            proto,
            src,
            dst,
            port,
        },
    )
}

/// How a step is written, by what it does.
pub fn step_of(alloc: Global, value: &Value) -> Result<Option<WrittenStep>, AllocError>
    ensures { IfOk result (λ found. found ≡ grammar.step_of_json (view value.now)) }
{
    match text_at("do", value) {
        Some("frame") => frame_of(alloc, value),
        Some(word) => Ok(plain_step(word, value)),
        None => Ok(None),
    }
}

/// The members of a scenario, with its lists unread.
#[derive(Drop)]
pub struct Lists<'v> {
    pub controllers: u64,
    pub switches: &'v [Value],
    pub links: &'v [Value],
    pub deny: &'v [Value],
    pub steps: &'v [Value],
}

/// What stands at the top of a scenario. `links` and `deny` may be left out.
pub fn lists_of(value: &Value) -> Option<Lists<'_>>
    ensures { option_map (λ lists. grammar.seen lists) result ≡ grammar.lists_of (view value.now) }
{
    let controllers = number_at("controllers", value)?;
    let switches = list_at("switches", value)?;
    let links = list_or_none("links", value)?;
    let deny = list_or_none("deny", value)?;
    let steps = list_at("steps", value)?;
    only(
        3 + counted("links", value) + counted("deny", value),
        value,
        Lists {
            controllers,
            switches,
            links,
            deny,
            steps,
        },
    )
}

/// The bytes that pairs of hexadecimal digits spell.
fn hex_bytes(alloc: Global, text: &str) -> Result<Option<Octets>, AllocError>
    ensures { IfOk result (λ found. found ≡ result_ok (decode_of text.now)) }
{
    match hex::decode(alloc, text) {
        Ok(bytes) => Ok(Some(Octets::from_vec(bytes))),
        Err(FromHexError::OutOfMemory) => Err(AllocError),
        Err(_) => Ok(None),
    }
}

/// Whether a letter is a capital one. It looks at each, since many are looked at at once where none ends the search.
fn has_capital(text: &[u8]) -> bool
    ensures { result ≡ list_any grammar.is_capital text.now }
{
    let mut found = false;
    for digit in text {
        found |= digit.is_ascii_uppercase();
    }
    found
}

/// The same of digits among which there is no capital letter.
fn small_hex_bytes(alloc: Global, text: &str) -> Result<Option<Octets>, AllocError>
    ensures { IfOk result (λ found. found ≡ grammar.small_hex_bytes text.now) }
{
    if has_capital(text.as_bytes()) {
        Ok(None)
    } else {
        hex_bytes(alloc, text)
    }
}

/// The actor of a name, a letter and a numeral.
fn actor_named(name: &str) -> Option<Actor>
    ensures { result ≡ grammar.actor_named name.now }
{
    let [letter, digits @ ..] = name.as_bytes() else {
        return None;
    };
    let number = numeral(digits, NO_ACTOR)? as u8;
    match letter {
        b'c' => Some(Actor::Controller(number)),
        b's' => Some(Actor::Switch(number)),
        _ => None,
    }
}

/// The actor at a name of an object.
fn actor_at(name: &str, value: &Value) -> Option<Actor>
    ensures { result ≡ grammar.actor_of_step name.now (view value.now) }
{
    actor_named(text_at(name, value)?)
}

/// A prefix: four bytes of an address and a length.
fn prefix_of(values: &[Value]) -> Option<WrittenPrefix>
    ensures { result ≡ grammar.five_numbers (map view values.now) }
{
    let [first, second, third, fourth, length] = values else {
        return None;
    };
    Some(WrittenPrefix {
        bytes: [
            number(first)?,
            number(second)?,
            number(third)?,
            number(fourth)?,
        ],
        length: number(length)?,
    })
}

/// The prefix at a name of an object.
fn prefix_at(name: &str, value: &Value) -> Option<WrittenPrefix>
    ensures { result ≡ grammar.prefix_at name.now (view value.now) }
{
    prefix_of(list_at(name, value)?)
}

/// A number, or none where it is left out.
fn number_if_any(name: &str, value: &Value) -> Option<Option<u64>>
    ensures { result ≡ grammar.number_if_any name.now (view value.now) }
{
    match value.get(name) {
        Some(said) => Some(Some(number(said)?)),
        None => Some(None),
    }
}

fn frame_of(alloc: Global, value: &Value) -> Result<Option<WrittenStep>, AllocError>
    ensures { IfOk result (λ found. found ≡ grammar.frame_of_step (view value.now)) }
{
    let (Some(switch), Some(port), Some(text)) = (
        number_at("switch", value),
        number_at("port", value),
        text_at("bytes", value),
    ) else {
        return Ok(None);
    };
    let Some(bytes) = small_hex_bytes(alloc, text)? else {
        return Ok(None);
    };
    Ok(only(
        4,
        value,
        WrittenStep::Frame {
            switch,
            port,
            bytes,
        },
    ))
}

fn port_of(value: &Value) -> Option<WrittenStep>
    ensures { result ≡ grammar.port_of (view value.now) }
{
    let switch = number_at("switch", value)?;
    let port = number_at("port", value)?;
    let up = flag_at("up", value)?;
    only(4, value, WrittenStep::Port { switch, port, up })
}

fn tick_of(value: &Value) -> Option<WrittenStep>
    ensures { result ≡ grammar.tick_of (view value.now) }
{
    let actor = actor_at("actor", value)?;
    let times = number_or(1, "times", value)?;
    only(
        2 + counted("times", value),
        value,
        WrittenStep::Tick { actor, times },
    )
}

fn draw_of(value: &Value) -> Option<WrittenStep>
    ensures { result ≡ grammar.draw_of (view value.now) }
{
    let actor = actor_at("actor", value)?;
    let choice = number_or(0, "choice", value)?;
    let keep = flag_or(false, "keep", value)?;
    let times = number_or(1, "times", value)?;
    only(
        2 + counted("choice", value) + counted("keep", value) + counted("times", value),
        value,
        WrittenStep::Draw {
            actor,
            choice,
            keep,
            times,
        },
    )
}

fn lose_of(value: &Value) -> Option<WrittenStep>
    ensures { result ≡ grammar.lose_of (view value.now) }
{
    let actor = actor_at("actor", value)?;
    let choice = number_or(0, "choice", value)?;
    let times = number_or(1, "times", value)?;
    only(
        2 + counted("choice", value) + counted("times", value),
        value,
        WrittenStep::Lose {
            actor,
            choice,
            times,
        },
    )
}

fn suspect_of(value: &Value) -> Option<WrittenStep>
    ensures { result ≡ grammar.suspect_of (view value.now) }
{
    let controller = number_at("controller", value)?;
    let view = number_at("view", value)?;
    only(3, value, WrittenStep::Suspect { controller, view })
}

fn crash_of(value: &Value) -> Option<WrittenStep>
    ensures { result ≡ grammar.crash_of (view value.now) }
{
    let controller = number_at("controller", value)?;
    only(2, value, WrittenStep::Crash { controller })
}

fn restart_of(value: &Value) -> Option<WrittenStep>
    ensures { result ≡ grammar.restart_of (view value.now) }
{
    let step = match value.get("controller") {
        Some(said) => WrittenStep::RestartController {
            controller: number(said)?,
        },
        None => WrittenStep::RestartSwitch {
            switch: number_at("switch", value)?,
        },
    };
    only(2, value, step)
}

/// The step of a word, but for a frame.
fn plain_step(word: &str, value: &Value) -> Option<WrittenStep>
    ensures { result ≡ grammar.plain_step word.now (view value.now) }
{
    match word {
        "port" => port_of(value),
        "tick" => tick_of(value),
        "draw" => draw_of(value),
        "lose" => lose_of(value),
        "suspect" => suspect_of(value),
        "crash" => crash_of(value),
        "restart" => restart_of(value),
        _ => None,
    }
}
