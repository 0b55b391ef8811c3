//! What becomes of letters, and the comments that tell it.
ghost use Rattle.std.specs.Prelude.{◌≡◌, ◌++◌, ℕ, nat_eq, Some, true, IfOk, OnOk, if◌then◌else◌};
ghost use Rattle.std.specs.BTreeMap.{get};
ghost use Rattle.std.specs.Ordering.{nat_cmp};
ghost use Rattle.journal.specs.Pool.{past};
ghost use Rattle.capture_laws.specs.Fates.{comment_of, fate, fate_or_none, kept_times as told_times, kept_words as told_kept, lost_words as told_lost, noted, roomless_words};

use capture_laws::Fate;
use journal::JournalEntry;
use of_types::Octets;
use report::{write_number, write_word};
use std::alloc::{AllocError, Global};
use std::collections::BTreeMap;

/// What becomes of the letters of a journal, by their numbers.
pub fn fates(
    alloc: Global,
    journal: &[JournalEntry<Octets>],
) -> Result<BTreeMap<u128, Fate>, AllocError>
    ensures { IfOk result (λ fates. (q : ℕ) → get nat_cmp fates q ≡ fate q (past journal.now)) }
{
    let mut fates = BTreeMap::new(alloc);
    'entries: for (place, entry) in journal.iter().enumerate() {
        note(&mut fates, entry)?;
    }
    Ok(fates)
}

/// The comment of a letter by its number, which found room or not.
#[tactic(auto, unfolding(capture_laws::specs::Fates::comment_of))]
pub fn comment(
    alloc: Global,
    fates: &BTreeMap<u128, Fate>,
    id: u128,
    fits: bool,
) -> Result<Octets, AllocError>
    ensures { IfOk result (λ comment. comment ≡ comment_of id fits (get nat_cmp fates.now id)) }
{
    match (fits, fates.get(&id)) {
        (false, _) => roomless(alloc, id),
        (true, Some(fate)) => told(alloc, id, *fate),
        (true, None) => Ok(Octets::new(alloc)),
    }
}

/// Notes what an entry does to a letter.
fn note(fates: &mut BTreeMap<u128, Fate>, entry: &JournalEntry<Octets>) -> Result<(), AllocError>
    ensures { OnOk result ((q : ℕ) → get nat_cmp fates.new q ≡ noted q entry.now (get nat_cmp fates.old q)) }
{
    match *entry {
        JournalEntry::Draw { id, keep: true, .. } => {
            let id = u128::from(id);
            let old = known(fates, id);
            let fate = Fate {
                kept: old.kept.saturating_add(1),
                lost: old.lost,
            };
            put(fates, id, fate)
        }
        JournalEntry::Lose { id, .. } => {
            let id = u128::from(id);
            let old = known(fates, id);
            let fate = Fate {
                kept: old.kept,
                lost: true,
            };
            put(fates, id, fate)
        }
        _ => Ok(()),
    }
}

/// Puts what is known of a number.
fn put(fates: &mut BTreeMap<u128, Fate>, id: u128, fate: Fate) -> Result<(), AllocError>
    ensures { OnOk result ((q : ℕ) → get nat_cmp fates.new q ≡ (if nat_eq id q then Some fate else get nat_cmp fates.old q)) }
{
    fates.insert(id, fate)?;
    Ok(())
}

/// What is known of a number.
fn known(fates: &BTreeMap<u128, Fate>, id: u128) -> Fate
    ensures { result ≡ fate_or_none (get nat_cmp fates.now id) }
{
    match fates.get(&id) {
        Some(fate) => *fate,
        None => Fate {
            kept: 0,
            lost: false,
        },
    }
}

/// What tells of a letter by its number that it found no room.
#[tactic(auto, unfolding(capture_laws::specs::Fates::roomless_words, report::specs::Report::number_text))]
fn roomless(alloc: Global, id: u128) -> Result<Octets, AllocError>
    ensures { IfOk result (λ comment. comment ≡ roomless_words id) }
{
    let mut comment = Octets::from_slice(alloc, b"packet")?;
    write_number(&mut comment, id)?;
    write_word(&mut comment, b"found no room")?;
    Ok(comment)
}

#[tactic(auto, unfolding(capture_laws::specs::Fates::comment_of, report::specs::Report::number_text))]
fn told(alloc: Global, id: u128, fate: Fate) -> Result<Octets, AllocError>
    ensures { IfOk result (λ comment. comment ≡ comment_of id true (Some fate)) }
{
    let mut comment = Octets::from_slice(alloc, b"packet")?;
    write_number(&mut comment, id)?;
    write_kept(&mut comment, fate.kept)?;
    write_lost(&mut comment, fate.lost)?;
    Ok(comment)
}

#[tactic(auto, unfolding(capture_laws::specs::Fates::kept_words))]
fn write_kept(out: &mut Octets, kept: u64) -> Result<(), AllocError>
    ensures { OnOk result (out.new ≡ out.old ++ told_kept kept) }
{
    if kept > 0 {
        write_times(out, kept)?;
    }
    Ok(())
}

#[tactic(auto, unfolding(capture_laws::specs::Fates::kept_times, report::specs::Report::number_text))]
fn write_times(out: &mut Octets, kept: u64) -> Result<(), AllocError>
    ensures { OnOk result (out.new ≡ out.old ++ told_times kept) }
{
    write_word(out, b"drawn and kept")?;
    write_number(out, kept)?;
    write_word(out, b"times")?;
    Ok(())
}

#[tactic(auto, unfolding(capture_laws::specs::Fates::lost_words))]
fn write_lost(out: &mut Octets, lost: bool) -> Result<(), AllocError>
    ensures { OnOk result (out.new ≡ out.old ++ told_lost lost) }
{
    if lost {
        write_word(out, b"lost")?;
    }
    Ok(())
}
