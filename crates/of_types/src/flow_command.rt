//! The commands of a FLOW_MOD, as numbers (OpenFlow 1.3, 7.3.4.1).

pub const ADD: u8 = 0;

pub const MODIFY: u8 = 1;

pub const MODIFY_STRICT: u8 = 2;

pub const DELETE: u8 = 3;

pub const DELETE_STRICT: u8 = 4;
