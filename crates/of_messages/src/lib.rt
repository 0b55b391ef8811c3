//! The messages of OpenFlow 1.3 as bytes: what is read, what is refused, and the one way in which each
//! is written.
#![tactic(auto)]

mod actions;
mod bodies;
mod fault;
mod fitting;
mod reading;
mod writing;

pub use fault::{BodyFault, OfFault};
pub use fitting::{
    flow_mod_fits, flow_removed_fits, message_fits, packet_in_fits, packet_out_fits,
    port_status_fits,
};
pub use reading::{decode, experimenter_body, message_law, read_message, xid_of};
pub use writing::{
    actions_of, encode, encode_flow_mod, encode_flow_removed, encode_packet_in, encode_packet_out,
    encode_port_status, exact_len, put_flow_mod, put_flow_removed, put_header, put_message,
    put_packet_in, put_packet_out, put_port_status, with_room,
};
