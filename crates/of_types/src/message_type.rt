//! The types of messages (OpenFlow 1.3, 7.1).

pub const HELLO: u8 = 0;

pub const ERROR: u8 = 1;

pub const ECHO_REQUEST: u8 = 2;

pub const ECHO_REPLY: u8 = 3;

pub const EXPERIMENTER: u8 = 4;

pub const FEATURES_REQUEST: u8 = 5;

pub const FEATURES_REPLY: u8 = 6;

pub const PACKET_IN: u8 = 10;

pub const FLOW_REMOVED: u8 = 11;

pub const PORT_STATUS: u8 = 12;

pub const PACKET_OUT: u8 = 13;

pub const FLOW_MOD: u8 = 14;

pub const BARRIER_REQUEST: u8 = 20;

pub const BARRIER_REPLY: u8 = 21;

pub const ROLE_REQUEST: u8 = 24;

pub const ROLE_REPLY: u8 = 25;
