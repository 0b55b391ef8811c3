//! What a flow table does, in whatever way it keeps its rows.
ghost use Rattle.std.specs.Prelude.{◌≡◌, None, List, [], ◌∷◌, ◌++◌, length, option_copied, IfOk, OnOk, OnErr, IfErr};
ghost use Rattle.of_types.specs.declared.message.FlowMod.{FlowMod};
ghost use Rattle.of_types.specs.declared.message.Row.{Row};
ghost use Rattle.flow_table.specs.declared.rows.TableFault.TheVariants as faults;
ghost use Rattle.flow_table.specs.Table.{chosen_row, table_step, table_after, table_fault, IsCause};

use of_types::{Fields, FlowMod, Row};
use std::alloc::AllocError;

/// Why a change of a flow table was refused.
#[derive(Clone, Copy, PartialEq, Eq, Debug)]
pub enum TableFault {
    /// An ADD of a new row finds no room.
    TableFull,
    /// There is no such table.
    BadTable,
    /// A flag is set that is none of those that are known.
    BadFlags,
    /// A buffered packet is named.
    BadBuffer,
    /// An output is none that a row may have.
    BadPort,
    /// There was no memory.
    OutOfMemory,
}

impl From<AllocError> for TableFault {
    ghost from_gives = { λ _ fault. fault ≡ faults.OutOfMemory };

    fn from(_error: AllocError) -> TableFault {
        TableFault::OutOfMemory
    }
}

/// The rows of a flow table (OpenFlow 1.3, 5.2), in the order of adding.
pub trait Rows {
    ghost rows_of: { Self → List Row };

    /// Changes the rows as a FLOW_MOD says, at a switch with so many ports (OpenFlow 1.3, 6.4). A refusal
    /// changes nothing. A DELETE takes no memory.
    fn apply(&mut self, change: &FlowMod, ports: u32) -> Result<(), TableFault>
        ensures accepted { OnOk result (table_fault (rows_of self.old) ports change.now ≡ None) }
        ensures changed { OnOk result (rows_of self.new ≡ table_step (rows_of self.old) change.now) }
        ensures table { OnOk result ((changes : List FlowMod) → rows_of self.old ≡ table_after changes → rows_of self.new ≡ table_after (changes ++ change.now ∷ [])) }
        ensures refused { IfErr result (λ fault. IsCause (table_fault (rows_of self.old) ports change.now) change.now.command fault) }
        ensures unchanged { OnErr result (rows_of self.new ≡ rows_of self.old) };

    /// The row that a frame with these fields meets: the matching one of highest priority, and of these the
    /// one that was added first.
    fn look_up(&self, fields: &Fields) -> Option<&Row>
        ensures { option_copied result ≡ chosen_row (rows_of self.now) fields.now };

    /// How many rows there are.
    fn count(&self) -> usize
        ensures { result ≡ length (rows_of self.now) };

    /// Copies of the rows, in the order of adding.
    fn rows(&self) -> Result<Vec<Row>, AllocError>
        ensures { IfOk result (λ rows. rows.items ≡ rows_of self.now) };
}
