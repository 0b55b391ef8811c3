//! The responses that a member in recovery keeps, one of each other member.
ghost use Rattle.std.specs.Prelude.{◌≡◌, ◌<◌, nat_eq, find, Some, length, vec_len, slice_get, slice_set, IfOk, OnOk};
ghost use Rattle.std.specs.List.{position};
ghost use Rattle.std.specs.Option.{option_copied};
ghost use Rattle.vr_recovery.specs.Keeping.{restored};
ghost use Rattle.vr_recovery.specs.Recovering.{with_response, told_log};

use std::alloc::AllocError;
use std::mem;
use vr_log::{Filled, Response};

/// What one more response changed.
#[derive(Drop)]
pub(crate) enum Former {
    Pushed,
    Replaced { place: usize, old: Response },
    Same,
}

/// The place of a member's response.
fn place_of(responses: &[Response], from: u8) -> Option<usize>
    ensures { result ≡ position (λ r. nat_eq r.from from) responses.now }
{
    responses.iter().position(|response| response.from == from)
}

/// Puts a response in the place of another, which it gives.
fn displace(responses: &mut Vec<Response>, place: usize, response: Response) -> Response
    requires { place < vec_len responses.old }
    ensures new { responses.new.items ≡ slice_set responses.old.items place response }
    ensures old { slice_get responses.old.items place ≡ Some result }
{
    mem::replace(&mut responses[place], response)
}

/// Keeps the newer one of a response and of that of the same member, at its place.
fn keep_at(responses: &mut Vec<Response>, place: usize, response: Response) -> Former
    requires { position (λ r. nat_eq r.from response.from) responses.old.items ≡ Some place }
    ensures kept { responses.new.items ≡ with_response responses.old.items response }
    ensures former { restored responses.new.items result ≡ responses.old.items }
{
    if responses[place].view < response.view {
        let old = displace(responses, place, response);
        return Former::Replaced { place, old };
    }
    Former::Same
}

/// Keeps the response of the greatest view of a member, and of equal views the first.
pub(crate) fn keep(responses: &mut Vec<Response>, response: Response) -> Result<Former, AllocError>
    ensures kept { OnOk result (responses.new.items ≡ with_response responses.old.items response) }
    ensures former { IfOk result (λ former. restored responses.new.items former ≡ responses.old.items) }
{
    match place_of(responses, response.from) {
        Some(place) => Ok(keep_at(responses, place, response)),
        None => {
            responses.push(response)?;
            Ok(Former::Pushed)
        }
    }
}

/// The responses as they were before.
pub(crate) fn restore(responses: &mut Vec<Response>, former: Former)
    ensures { responses.new.items ≡ restored responses.old.items former }
{
    match former {
        Former::Pushed => responses.truncate(responses.len().saturating_sub(1)),
        Former::Replaced { place, old } => {
            if place < responses.len() {
                displace(responses, place, old);
            }
        }
        Former::Same => {}
    }
}

fn response_of(responses: &[Response], member: u8) -> Option<&Response>
    ensures { option_copied result ≡ find (λ r. nat_eq r.from member) responses.now }
{
    responses.iter().find(|response| response.from == member)
}

/// The log that a member told of a view.
pub(crate) fn log_of(responses: &[Response], member: u8, view: u32) -> Option<&Filled>
    ensures { option_copied result ≡ told_log view (find (λ r. nat_eq r.from member) responses.now) }
{
    match response_of(responses, member) {
        Some(response) => log_told(response, view),
        None => None,
    }
}

fn log_told(response: &Response, view: u32) -> Option<&Filled>
    ensures { option_copied result ≡ told_log view (Some response.now) }
{
    if response.view == view {
        response.filled.as_ref()
    } else {
        None
    }
}
