//! Which row a frame meets. No code is here.
ghost use Rattle.flow_table.specs.Choosing.{ChosenIsFirstOfHighest, NoneIsChosenOfNone};

/// The row that a frame meets is the matching one of highest priority, and of these the first (OpenFlow 1.3, 5.3). A frame that meets
/// none matches none.
pub fn chosen_row_law()
    ensures chosen { ChosenIsFirstOfHighest }
    ensures none { NoneIsChosenOfNone }
{}
