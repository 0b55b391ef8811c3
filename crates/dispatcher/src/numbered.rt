//! Commands as they are sent.
use of_types::Order;

/// A command that is to be sent: its switch, the life and the number that it has there, how many commands of
/// that life are settled, and the order.
#[derive(Drop)]
pub struct NumberedOrder {
    pub switch: u8,
    pub life: u32,
    pub number: u64,
    pub settled: u64,
    pub order: Order,
}
