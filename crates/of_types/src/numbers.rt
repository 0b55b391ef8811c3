//! The numbers that OpenFlow 1.3 gives names to, and those of its extension by Ravana. Types of messages,
//! commands, fields and errors stand apart.

/// The version of OpenFlow 1.3 (7.1).
pub const VERSION: u8 = 4;

/// The port that a frame came in by, as an output (7.2.1).
pub const IN_PORT: u32 = 0xffff_fff8;

/// Every port but the one that a frame came in by, as an output (7.2.1).
pub const FLOOD: u32 = 0xffff_fffb;

/// Every port but the one that a frame came in by, as an output (7.2.1).
pub const ALL_PORTS: u32 = 0xffff_fffc;

/// The controller, as an output (7.2.1).
pub const TO_CONTROLLER: u32 = 0xffff_fffd;

/// No port in particular (7.2.1).
pub const ANY_PORT: u32 = 0xffff_ffff;

/// No group in particular (7.3.4.1).
pub const ANY_GROUP: u32 = 0xffff_ffff;

/// No packet is buffered (7.3.4.1).
pub const NO_BUFFER: u32 = 0xffff_ffff;

/// All tables, as a DELETE may name them (7.3.3).
pub const ALL_TABLES: u8 = 0xff;

/// The bit of a port's state that its link is down (7.2.1).
pub const LINK_DOWN: u32 = 1;

/// A match of fields (7.2.3.1): OFPMT_OXM.
pub const MATCH_OF_FIELDS: u16 = 1;

/// The class of a field of the standard (7.2.3.3).
pub const OPENFLOW_BASIC: u16 = 0x8000;

/// The mask of all bits of an Ethernet address: the address counts whole (7.2.3.5).
pub const ONES48: u64 = 0xffff_ffff_ffff;

/// The mask of all bits of an IPv4 address: the address counts whole (7.2.3.5).
pub const ONES32: u32 = 0xffff_ffff;

/// The Ethernet type of IPv4, which the fields of IPv4 need (7.2.3.8).
pub const IPV4: u16 = 0x0800;

/// The protocol TCP, which the fields of TCP need (7.2.3.8).
pub const TCP: u8 = 6;

/// The protocol UDP, which the fields of UDP need (7.2.3.8).
pub const UDP: u8 = 17;

/// The instruction that applies actions (7.2.4).
pub const APPLY_ACTIONS: u16 = 4;

/// The action that outputs to a port (7.2.5).
pub const OUTPUT: u16 = 0;

/// The bytes of an action OUTPUT (7.2.5).
pub const OUTPUT_LENGTH: u16 = 16;

/// All of a frame goes to the controller (7.2.5): OFPCML_NO_BUFFER.
pub const WHOLE_FRAME: u16 = 0xffff;

/// A PACKET_IN of a frame that met no row but the table-miss one (7.4.1).
pub const REASON_NO_MATCH: u8 = 0;

/// A PACKET_IN of a frame that a row sends to the controller (7.4.1).
pub const REASON_ACTION: u8 = 1;

/// A PORT_STATUS of a new port (7.4.3).
pub const REASON_ADD: u8 = 0;

/// A PORT_STATUS of a port that is gone (7.4.3).
pub const REASON_DELETE: u8 = 1;

/// A PORT_STATUS of a port that has changed (7.4.3).
pub const REASON_MODIFY: u8 = 2;

/// A FLOW_REMOVED of a row that no frame met for its idle timeout (7.4.2).
pub const REASON_IDLE: u8 = 0;

/// A FLOW_REMOVED of a row that has stood for its hard timeout (7.4.2).
pub const REASON_HARD: u8 = 1;

/// The flag of a row that asks for a FLOW_REMOVED (7.3.4.1): OFPFF_SEND_FLOW_REM.
pub const SEND_REMOVED: u16 = 1;

/// The number of Ravana among the experimenters (7.5.4).
pub const RAVANA: u32 = 0x0002_5256;

/// A controller asks for its role (7.3.9).
pub const NO_CHANGE: u32 = 0;

/// A controller asks to be one of several (7.3.9).
pub const EQUAL: u32 = 1;

/// A controller asks to be master (7.3.9).
pub const MASTER: u32 = 2;

/// A controller asks to be a slave (7.3.9).
pub const SLAVE: u32 = 3;

/// The shortest frame.
pub const SHORTEST_FRAME: usize = 14;

/// The longest frame.
pub const LONGEST_FRAME: usize = 1514;
