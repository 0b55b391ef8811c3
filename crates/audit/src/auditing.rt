//! The audit of a report.
ghost use Rattle.std.specs.Prelude.{◌≡◌, ◌+◌, ℕ, List, IfOk};
ghost use Rattle.of_types.specs.Setups.{IsSetup};
ghost use Rattle.audit.specs.Audit.{first_failing, differs, verdict_of};
ghost use Rattle.audit.specs.Judging.{IsEvidence, IsCommittedLog, outline_before, outline_fails};

use crate::counting::add;
use crate::evidence::{Evidence, executed_names, told_events};
use crate::issuing::issue_all;
use crate::log_lines::first_of_log;
use crate::received::events_of;
use crate::switch_lines::{Committed, first_of_switches};
use app_core::App;
use of_types::Octets;
use plain_controller::Single;
use report::{Outline, Record, ReportFault, read_outline};
use std::alloc::{AllocError, Global};

/// What an audit finds.
#[derive(Clone, Copy, PartialEq, Eq, Debug)]
pub enum Verdict {
    /// No line fails.
    Same,
    /// The first line that fails, from 1 on.
    Differs { line: u64 },
}

/// How many lines there are up to that of the log.
fn lines_before(outline: &Outline) -> Result<u64, AllocError>
    ensures { IfOk result (λ count. count ≡ outline_before outline.now) }
{
    let setup = &outline.bare.setup;
    let ports = add(3, setup.ports.len() as u64)?;
    let links = add(ports, setup.links.len() as u64)?;
    let rules = add(links, setup.deny.len() as u64)?;
    add(rules, outline.journal_lines)
}

/// What the lines of the log, and what those of the switches are judged by.
fn gather<A: App>(
    alloc: Global,
    lines: &Record,
    app: &mut A,
) -> Result<(Evidence, Committed), AllocError>
    requires { IsSetup lines.now.setup }
    ensures evidence { IfOk result (λ x. IsEvidence (A.law.kinds app.old) lines.now x.0) }
    ensures committed { IfOk result (λ x. IsCommittedLog (A.law.kinds app.old) lines.now x.1) }
{
    app.start(alloc, &lines.setup)?;
    let received = events_of(alloc, lines.log.as_slice())?;
    let lists = Single::run(alloc, app, received.as_slice())?;
    let issued = issue_all(alloc, received.as_slice(), lists)?;
    let told = told_events(alloc, &received, lines.switches.as_slice())?;
    let executed = executed_names(alloc, lines.switches.as_slice())?;
    let processed = lines.log.len() - received.len();
    Ok((
        Evidence {
            told,
            executed,
            names: issued.names,
        },
        Committed {
            received,
            processed,
            orders: issued.orders,
        },
    ))
}

/// The first line of an outline that fails, by what its lines are judged by.
fn first_judged(
    outline: &Outline,
    evidence: &Evidence,
    committed: &Committed,
) -> Result<Option<u64>, AllocError>
    ensures { (kinds : List ℕ) → IsEvidence kinds outline.now.bare evidence.now → IsCommittedLog kinds outline.now.bare committed.now →
        IfOk result (λ first. first ≡ first_failing 1 (outline_fails kinds outline.now)) }
{
    let lines = &outline.bare;
    let entries = add(lines_before(outline)?, 1)?;
    match first_of_log(entries, lines.log.as_slice(), evidence)? {
        Some(first) => Ok(Some(first)),
        None => {
            let switches = add(entries, lines.log.len() as u64)?;
            first_of_switches(switches, lines.switches.as_slice(), committed)
        }
    }
}

/// The first line of an outline that fails.
fn first_of_outline<A: App>(
    alloc: Global,
    outline: &Outline,
    app: &mut A,
) -> Result<Option<u64>, AllocError>
    requires { IsSetup outline.now.bare.setup }
    ensures { IfOk result (λ first. first ≡ first_failing 1 (outline_fails (A.law.kinds app.old) outline.now)) }
{
    let (evidence, committed) = gather(alloc, &outline.bare, app)?;
    first_judged(outline, &evidence, &committed)
}

fn verdict_of(first: Option<u64>) -> Verdict
    ensures { result ≡ verdict_of first }
{
    match first {
        Some(line) => Verdict::Differs { line },
        None => Verdict::Same,
    }
}

/// Audits a report: tells whether no line fails, or the first that does. The application is started for the report's setup.
/// At want of memory it is to be dropped. The bytes are let go once they are read: the lines are judged without them.
#[tactic(auto, unfolding(crate::specs::Audit::differs))]
pub fn check<A: App>(alloc: Global, bytes: Octets, app: &mut A) -> Result<Verdict, AllocError>
    ensures { IfOk result (λ verdict. verdict ≡ verdict_of (differs (A.law.kinds app.old) bytes)) }
{
    match read_outline(alloc, bytes.as_slice()) {
        Ok(outline) => {
            drop(bytes);
            Ok(verdict_of(first_of_outline(alloc, &outline, app)?))
        }
        Err(ReportFault::NotText { line }) => Ok(Verdict::Differs { line }),
        Err(ReportFault::OutOfMemory) => Err(AllocError),
    }
}
