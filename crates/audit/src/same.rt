//! Whether two orders are equal.
ghost use Rattle.std.specs.Prelude.{◌≡◌};
ghost use Rattle.audit.specs.Orders as orders;
ghost use Rattle.vr_log.specs.Same as same;

use of_types::{FlowCommand, FlowMod, Order, PacketOut, same_match};

/// Whether two orders are equal.
pub fn same_order(a: &Order, b: &Order) -> bool
    ensures { result ≡ orders.same_order a.now b.now }
{
    match (a, b) {
        (Order::FlowMod(a), Order::FlowMod(b)) => same_flow_mod(a.get(), b.get()),
        (Order::PacketOut(a), Order::PacketOut(b)) => same_packet_out(a, b),
        _ => false,
    }
}

fn same_bytes(a: &[u8], b: &[u8]) -> bool
    ensures { result ≡ same.same_numbers a.now b.now }
{
    a == b
}

fn same_actions(a: &[u32], b: &[u32]) -> bool
    ensures { result ≡ same.same_numbers a.now b.now }
{
    a == b
}

fn same_command(a: FlowCommand, b: FlowCommand) -> bool
    ensures { result ≡ orders.same_command a b }
{
    a == b
}

fn same_way(a: &FlowMod, b: &FlowMod) -> bool
    ensures { result ≡ orders.same_way a.now b.now }
{
    a.cookie == b.cookie
        && a.cookie_mask == b.cookie_mask
        && a.table == b.table
        && same_command(a.command, b.command)
        && a.idle == b.idle
        && a.hard == b.hard
}

fn same_place(a: &FlowMod, b: &FlowMod) -> bool
    ensures { result ≡ orders.same_place a.now b.now }
{
    a.priority == b.priority
        && a.buffer == b.buffer
        && a.out_port == b.out_port
        && a.out_group == b.out_group
        && a.flags == b.flags
}

fn same_flow_mod(a: &FlowMod, b: &FlowMod) -> bool
    ensures { result ≡ orders.same_flow_mod a.now b.now }
{
    same_way(a, b)
        && same_place(a, b)
        && same_match(&a.matching, &b.matching)
        && same_actions(a.actions.as_slice(), b.actions.as_slice())
}

fn same_packet_out(a: &PacketOut, b: &PacketOut) -> bool
    ensures { result ≡ orders.same_packet_out a.now b.now }
{
    a.buffer == b.buffer
        && a.in_port == b.in_port
        && same_actions(a.actions.as_slice(), b.actions.as_slice())
        && same_bytes(a.payload.as_slice(), b.payload.as_slice())
}
