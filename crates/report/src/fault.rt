//! Why a report is not read.
ghost use Rattle.std.specs.Prelude.{◌≡◌};
ghost use Rattle.report.specs.declared.fault.Misfit.TheVariants as misfit;
ghost use Rattle.report.specs.declared.fault.Broken.TheVariants as broken;
ghost use Rattle.report.specs.Lines.{IsOnLine};

use std::alloc::{AllocError, AllocFailed};

/// Why bytes are no record's text.
#[derive(Clone, Copy, Debug)]
pub enum ReportFault {
    /// The first line, from 1 on, that is none of a report's, stands in a wrong place or tells a wrong sum.
    NotText { line: u64 },
    /// The record found no memory.
    OutOfMemory,
}

/// Why a word or a line is not read.
#[derive(Clone, Copy)]
pub enum Misfit {
    /// It is none that stands there.
    Text,
    /// What it tells found no memory.
    OutOfMemory,
}

impl From<AllocError> for Misfit {
    ghost from_gives = { λ _ fault. fault ≡ misfit.OutOfMemory };

    fn from(_: AllocError) -> Misfit {
        Misfit::OutOfMemory
    }
}

impl<T: Drop> From<AllocFailed<T>> for Misfit {
    ghost from_gives = { λ _ fault. fault ≡ misfit.OutOfMemory };

    fn from(_: AllocFailed<T>) -> Misfit {
        Misfit::OutOfMemory
    }
}

/// Why several lines are not read.
#[derive(Clone, Copy)]
pub enum Broken {
    /// A line does not fit, with which so many bytes are left.
    Line { left: usize },
    /// What they tell found no memory.
    OutOfMemory,
}

impl From<AllocError> for Broken {
    ghost from_gives = { λ _ fault. fault ≡ broken.OutOfMemory };

    fn from(_: AllocError) -> Broken {
        Broken::OutOfMemory
    }
}

impl<T: Drop> From<AllocFailed<T>> for Broken {
    ghost from_gives = { λ _ fault. fault ≡ broken.OutOfMemory };

    fn from(_: AllocFailed<T>) -> Broken {
        Broken::OutOfMemory
    }
}

/// What was read of the line at the front of these bytes.
pub fn on_line<X>(bytes: &[u8], read: Result<X, Misfit>) -> Result<X, Broken>
    ensures { IsOnLine bytes.now read result }
{
    match read {
        Ok(read) => Ok(read),
        Err(Misfit::Text) => Err(Broken::Line { left: bytes.len() }),
        Err(Misfit::OutOfMemory) => Err(Broken::OutOfMemory),
    }
}
