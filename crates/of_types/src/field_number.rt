//! The numbers of the fields of a match in the class OPENFLOW_BASIC (OpenFlow 1.3, 7.2.3.7).

pub const IN_PORT: u8 = 0;

pub const ETH_DST: u8 = 3;

pub const ETH_SRC: u8 = 4;

pub const ETH_TYPE: u8 = 5;

pub const IP_PROTO: u8 = 10;

pub const IPV4_SRC: u8 = 11;

pub const IPV4_DST: u8 = 12;

pub const TCP_SRC: u8 = 13;

pub const TCP_DST: u8 = 14;

pub const UDP_SRC: u8 = 15;

pub const UDP_DST: u8 = 16;
