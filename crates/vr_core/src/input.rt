//! What a member takes.
use vr_log::VrMessage;

/// What a member takes in one step.
#[derive(Drop)]
pub enum VrInput {
    /// A message of another member.
    From { from: u8, message: VrMessage },
    /// A view is suspected to have failed; this is the one to change to.
    Suspect { view: u32 },
    /// Time passes.
    Tick,
}
