//! Changes of a table, and frames that meet its rows, in short.
use of_types::{
    ANY_GROUP, ANY_PORT, Actions, Fields, FlowCommand, FlowMod, Match, NO_BUFFER, fields,
};
use std::alloc::{AllocError, Global};

/// What the changes of a test differ in.
#[derive(Clone, Copy)]
pub(crate) struct Change {
    pub(crate) command: FlowCommand,
    pub(crate) table: u8,
    pub(crate) flags: u16,
    pub(crate) idle: u16,
    pub(crate) hard: u16,
    pub(crate) buffer: u32,
    pub(crate) output: u32,
    pub(crate) out_port: u32,
    pub(crate) priority: u16,
    pub(crate) cookie: u64,
    pub(crate) cookie_mask: u64,
    pub(crate) matching: Match,
}

/// The match of all frames.
pub(crate) const ANY: Match = Match {
    in_port: None,
    eth_dst: None,
    eth_src: None,
    eth_type: None,
    ip_proto: None,
    ipv4_src: None,
    ipv4_dst: None,
    tcp_src: None,
    tcp_dst: None,
    udp_src: None,
    udp_dst: None,
};

/// A row for every frame, to port 1.
pub(crate) const ADD: Change = Change {
    command: FlowCommand::Add,
    table: 0,
    flags: 0,
    idle: 0,
    hard: 0,
    buffer: NO_BUFFER,
    output: 1,
    out_port: ANY_PORT,
    priority: 0,
    cookie: 0,
    cookie_mask: 0,
    matching: ANY,
};

pub(crate) fn flow_mod(alloc: Global, change: &Change) -> Result<FlowMod, AllocError> {
    let mut actions = Actions::new(alloc);
    actions.push(change.output)?;
    Ok(FlowMod {
        cookie: change.cookie,
        cookie_mask: change.cookie_mask,
        table: change.table,
        command: change.command,
        idle: change.idle,
        hard: change.hard,
        priority: change.priority,
        buffer: change.buffer,
        out_port: change.out_port,
        out_group: ANY_GROUP,
        flags: change.flags,
        matching: change.matching,
        actions,
    })
}

/// The frame from 02:00:00:00:00:02 to 02:00:00:00:00:01, as it comes in by a port.
pub(crate) fn at_port(port: u32) -> Fields {
    let frame = [2, 0, 0, 0, 0, 1, 2, 0, 0, 0, 0, 2, 0x88, 0xb5];
    Fields {
        in_port: Some(port),
        ..fields(&frame)
    }
}
