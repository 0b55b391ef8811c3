//! The types of the messages of Ravana's extension (Ravana, 4), as an EXPERIMENTER has them.

/// A switch tells an event.
pub const EVENT: u32 = 1;

/// A controller has processed the events below a number.
pub const EVENT_ACK: u32 = 2;

/// A controller sends a command.
pub const COMMAND: u32 = 3;

/// A switch tells what became of a command.
pub const CMD_ACK: u32 = 4;

/// A controller no longer asks for the results below a number.
pub const CBUF_CLEAR: u32 = 5;
