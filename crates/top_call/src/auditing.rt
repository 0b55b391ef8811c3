//! The audit of the bytes that were read.
ghost use Rattle.std.specs.Prelude.{◌≡◌, ℕ, List, IfOk};
ghost use Rattle.audit.specs.Audit.{differs, verdict_of};
ghost use Rattle.top_call.specs.Ending.{EndsReport};
ghost use Rattle.top_call.specs.Play.{AreChains};

use crate::ending::Ending;
use app_core::App;
use audit::{Verdict, check};
use of_types::Octets;
use report::REPORT_LIMIT;
use scenario::{Fault, FaultKind, FaultPlace};
use std::alloc::{AllocError, Global};

/// What is told of a report that has more.
const TOO_LARGE: Fault = Fault {
    kind: FaultKind::Size,
    place: FaultPlace::Top,
};

/// How the bytes of a report end.
pub fn audited<A: App>(alloc: Global, bytes: Octets, chains: Vec<A>) -> Result<Ending, AllocError>
    requires chains { (kinds : List ℕ) × AreChains A.law kinds chains.items }
    ensures { (kinds : List ℕ) → AreChains A.law kinds chains.items →
        IfOk result (EndsReport kinds bytes) }
{
    if bytes.len() > REPORT_LIMIT {
        return Ok(Ending::Refused(TOO_LARGE));
    }
    match verdict_on(alloc, bytes, chains)? {
        Verdict::Same => Ok(Ending::Same),
        Verdict::Differs { line } => Ok(Ending::Differs { line }),
    }
}

/// What the audit of a report finds, by the applications of the first life of the first controller.
fn verdict_on<A: App>(alloc: Global, bytes: Octets, chains: Vec<A>) -> Result<Verdict, AllocError>
    requires chains { (kinds : List ℕ) × AreChains A.law kinds chains.items }
    ensures { (kinds : List ℕ) → AreChains A.law kinds chains.items →
        IfOk result (λ verdict. verdict ≡ verdict_of (differs kinds bytes)) }
{
    let mut chains = chains;
    check(alloc, bytes, &mut chains[0])
}
