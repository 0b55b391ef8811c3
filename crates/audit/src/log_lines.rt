//! The lines of the log, held against each other and against those of the switches.
ghost use Rattle.std.specs.Prelude.{◌≡◌, ℕ, false, List, [], get_or, slice_index_or, IfOk};
ghost use Rattle.std.specs.List.{list_all};
ghost use Rattle.vr_log.specs.declared.entry.Entry.TheVariants as entries;
ghost use Rattle.report.specs.declared.record.Record.{Record};
ghost use Rattle.audit.specs.Audit.{log_fails, first_failing};
ghost use Rattle.audit.specs.Judging.{IsEvidence, is_settled_by, entry_fails_by};

use crate::counting::add;
use crate::evidence::Evidence;
use crate::following::Following;
use crate::named::Name;
use std::alloc::AllocError;
use vr_log::Entry;

/// The first line of a log that fails. They are numbered from this line on.
pub fn first_of_log(
    line: u64,
    log: &[Entry],
    evidence: &Evidence,
) -> Result<Option<u64>, AllocError>
    ensures { (kinds : List ℕ) (r : Record) → IsEvidence kinds r evidence.now → r.log ≡ log.now →
        IfOk result (λ first. first ≡ first_failing line (log_fails kinds r [] log.now)) }
{
    let mut so_far = Following::new();
    let mut number = line;
    for entry in log {
        if fails(entry, &so_far, evidence) {
            return Ok(Some(number));
        }
        so_far.join(entry)?;
        number = add(number, 1)?;
    }
    Ok(None)
}

fn is_settled(name: Name, so_far: &Following, evidence: &Evidence) -> bool
    ensures { result ≡ is_settled_by evidence.now so_far.now name }
{
    evidence.executed.has(name) || so_far.has_begun(name.0, name.1)
}

fn are_settled(place: usize, so_far: &Following, evidence: &Evidence) -> bool
    ensures { result ≡ list_all (is_settled_by evidence.now so_far.now) (slice_index_or evidence.now.names place []) }
{
    match evidence.names.as_slice().get(place) {
        Some(names) => names
            .as_slice()
            .iter()
            .all(|name| is_settled(*name, so_far, evidence)),
        None => true,
    }
}

fn is_told(place: usize, evidence: &Evidence) -> bool
    ensures { result ≡ get_or evidence.now.told.items place false }
{
    match evidence.told.get(place) {
        Some(told) => *told,
        None => false,
    }
}

/// Whether a line fails behind those that were followed.
fn fails(entry: &Entry, so_far: &Following, evidence: &Evidence) -> bool
    ensures { result ≡ entry_fails_by evidence.now so_far.now entry.now }
{
    let holds = so_far.may_join(entry)
        && match entry {
            Entry::Received(_) => is_told(so_far.received as usize, evidence),
            Entry::Processed(place) => are_settled(*place as usize, so_far, evidence),
        };
    !holds
}
