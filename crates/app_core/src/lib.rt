//! What an application is to a controller: parts, chains of parts, and what each kind of part does with an
//! event. The plain controller that never fails is among the definitions.
#![tactic(auto)]

mod app;
mod commands;
mod host;
mod issued;
mod manner;
mod operator;
mod part;
mod rules;
mod shortest;
mod switch_port;

pub use app::App;
pub use commands::{flow_change, flow_mod, forgetting_rows, frames_to, packet_out};
pub use host::{Host, is_single};
pub use issued::{Issued, issued_is_single};
pub use manner::Manner;
pub use operator::{
    OPERATOR_PORT, OPERATOR_SWITCH, OPERATOR_TYPE, VERSION_PLACE, asked_by, asked_version,
    operators_choose_versions,
};
pub use part::{Part, joined_reactions, start_parts};
pub use rules::rules_keep_their_laws;
pub use shortest::{levels_bound_walks, routes_are_shortest};
pub use switch_port::{Leg, SwitchPort};
