//! The kinds of parts that learn, and the manner of each.
ghost use Rattle.std.specs.Prelude.{◌≡◌, ℕ};
ghost use Rattle.app_core.specs.declared.manner.Manner.{Manner};
ghost use Rattle.app_core.specs.Chain.{rule_of, learning_rule, learning, pinned, aging};
ghost use Rattle.app_core.specs.Learning.{plainly, pinning, ageing};
ghost use Rattle.app_core.proofs.Rows.{learning_row, pinned_row, aging_row};

use app_core::Manner;

/// A kind of parts that learn. Of such a type no value is made: it only tells a part which kind it is.
pub trait Learner: Drop {
    ghost KIND: { ℕ };

    const KIND: u8;

    ghost manner: { Manner };

    /// In which manner parts of the kind learn.
    fn manner() -> Manner
        ensures { result ≡ manner };

    // Its row in the table of kinds.
    ghost learns: { rule_of KIND ≡ learning_rule manner };
}

/// An address goes with its host.
#[derive(Drop)]
pub struct Plainly;

impl Learner for Plainly {
    ghost KIND = { learning };

    const KIND: u8 = 2;

    ghost manner = { plainly };

    ghost learns = { learning_row };

    fn manner() -> Manner {
        Manner {
            pins: false,
            idle: 0,
            flags: 0,
        }
    }
}

/// An address keeps the port that it has.
#[derive(Drop)]
pub struct Pinning;

impl Learner for Pinning {
    ghost KIND = { pinned };

    const KIND: u8 = 5;

    ghost manner = { pinning };

    ghost learns = { pinned_row };

    fn manner() -> Manner {
        Manner {
            pins: true,
            ..Plainly::manner()
        }
    }
}

/// A row leaves after four ticks in which no frame met it.
#[derive(Drop)]
pub struct Ageing;

impl Learner for Ageing {
    ghost KIND = { aging };

    const KIND: u8 = 6;

    ghost manner = { ageing };

    ghost learns = { aging_row };

    fn manner() -> Manner {
        Manner {
            idle: 4,
            flags: 1,
            ..Plainly::manner()
        }
    }
}
