//! What the types of a record say of its numbers and bytes. These functions do nothing when they run.
ghost use Rattle.std.specs.List.{AllByRecursion};
ghost use Rattle.std.specs.Prelude.{◌<◌, ◌^◌, ℕ, List, map, IfSome};
ghost use Rattle.journal.specs.declared.journal.Letter.{Letter};
ghost use Rattle.journal.specs.Entries.{whole_entry};
ghost use Rattle.of_match.specs.Spelling.{Fits};
ghost use Rattle.of_messages.specs.Fits.{FitPorts};
ghost use Rattle.of_ravana.specs.Canonical.{happening_message, order_message};
ghost use Rattle.report.specs.Fits.{FitsEntry, FitsOfMessage, FitsEvent, FitsLogEntry, FitsExecuted, FitsShown, FitsTold, FitsRecord};
ghost use Rattle.report.specs.Records.{AreOctets, FitsRule, FitsActor, FitsLetter, FitsInput};

use crate::record::{Record, RowRecord, SwitchRecord};
use journal::{Actor, Head, JournalEntry, Letter, Local, Mailbag};
use of_bytes::{u8_fits, u16_fits, u32_fits, u64_fits};
use of_messages::{
    flow_mod_fits, flow_removed_fits, packet_in_fits, packet_out_fits, port_status_fits,
};
use of_types::{Event, Executed, Happening, Match, Octets, Order, Rule};
use vr_log::Entry;

/// A value of whose numbers and bytes its type says something.
trait Fitting {
    ghost fits: { Self → Type 0 };

    /// What its type says.
    fn fit(&self)
        ensures { fits self.now };
}

/// What the type says of each.
fn each_fits<F: Fitting>(items: &[F])
    ensures { AllByRecursion F.fits items.now }
{
    for item in items {
        item.fit();
    }
}

fn bytes_fit(bytes: &[u8])
    ensures { AreOctets bytes.now }
{
    let _first = bytes.first().copied();
}

fn ports_fit(ports: &[u32])
    ensures { FitPorts ports.now }
{
    let _first = ports.first().copied();
}

fn count_fits(count: usize)
    ensures { count < 2 ^ 64 }
{}

fn controller_fits(controller: Option<u8>)
    ensures { IfSome controller (λ c. c < 2 ^ 8) }
{}

fn generation_fits(generation: Option<u64>)
    ensures { IfSome generation (λ g. g < 2 ^ 64) }
{}

fn actor_fits(actor: Actor)
    ensures { FitsActor actor }
{}

fn rule_fits(rule: Rule)
    ensures { FitsRule rule }
{}

fn match_fits(matching: Match)
    ensures { Fits matching }
{}

impl Fitting for Rule {
    ghost fits = { FitsRule };

    fn fit(&self) {
        rule_fits(*self);
    }
}

fn input_fits(input: &Local)
    ensures { FitsInput input.now }
{
    match input {
        Local::Frame { port, bytes } => {
            u32_fits(*port);
            bytes_fit(bytes.as_slice());
        }
        Local::Port { port, .. } => u32_fits(*port),
        Local::Suspect { view } => u32_fits(*view),
        Local::Tick | Local::Crash | Local::Restart => {}
    }
}

impl Fitting for Letter<Octets> {
    ghost fits = { FitsLetter };

    fn fit(&self) {
        actor_fits(self.to);
        bytes_fit(self.body.as_slice());
    }
}

impl Fitting for JournalEntry<Octets> {
    ghost fits = { FitsEntry };

    fn fit(&self) {
        match self {
            JournalEntry::Post {
                actor,
                first,
                letters,
                lost,
            } => {
                actor_fits(*actor);
                u64_fits(*first);
                count_fits(letters.len());
                u64_fits(*lost);
                each_fits(letters.as_slice());
            }
            JournalEntry::Draw { actor, id, .. } | JournalEntry::Lose { actor, id } => {
                actor_fits(*actor);
                u64_fits(*id);
            }
            JournalEntry::Local { actor, input } => {
                actor_fits(*actor);
                input_fits(input);
            }
            JournalEntry::Idle { actor } | JournalEntry::Refused { actor } => actor_fits(*actor),
        }
    }
}

fn happening_fits(what: &Happening)
    ensures { FitsOfMessage (happening_message what.now) }
{
    match what {
        Happening::PacketIn(packet) => {
            packet_in_fits(packet);
            bytes_fit(packet.payload.as_slice());
        }
        Happening::FlowRemoved(removed) => flow_removed_fits(removed.get()),
        Happening::PortStatus(status) => port_status_fits(*status),
    }
}

fn order_fits(what: &Order)
    ensures { FitsOfMessage (order_message what.now) }
{
    match what {
        Order::FlowMod(change) => flow_mod_fits(change.get()),
        Order::PacketOut(packet) => {
            packet_out_fits(packet);
            bytes_fit(packet.payload.as_slice());
        }
    }
}

impl Fitting for Event {
    ghost fits = { FitsEvent };

    fn fit(&self) {
        u8_fits(self.switch);
        u32_fits(self.life);
        u64_fits(self.number);
        happening_fits(&self.what);
    }
}

impl Fitting for Entry {
    ghost fits = { FitsLogEntry };

    fn fit(&self) {
        match self {
            Entry::Received(event) => event.fit(),
            Entry::Processed(place) => u64_fits(*place),
        }
    }
}

impl Fitting for Executed {
    ghost fits = { FitsExecuted };

    fn fit(&self) {
        u32_fits(self.life);
        u64_fits(self.number);
        u64_fits(self.generation);
        u8_fits(self.from);
        order_fits(&self.order);
    }
}

impl Fitting for RowRecord {
    ghost fits = { FitsShown };

    fn fit(&self) {
        u16_fits(self.priority);
        match_fits(self.matching);
        ports_fit(self.actions.as_slice());
    }
}

impl Fitting for SwitchRecord {
    ghost fits = { FitsTold };

    fn fit(&self) {
        generation_fits(self.generation);
        controller_fits(self.master);
        u32_fits(self.life);
        u64_fits(self.held);
        u64_fits(self.sent);
        count_fits(self.events.len());
        count_fits(self.executed.len());
        count_fits(self.rows.len());
        each_fits(self.events.as_slice());
        each_fits(self.executed.as_slice());
        each_fits(self.rows.as_slice());
    }
}

/// Each number of a record fits its field, and bytes are bytes.
pub fn record_fits(told: &Record)
    ensures { FitsRecord told.now }
{
    each_fits(told.setup.deny.as_slice());
    each_fits(told.journal.as_slice());
    count_fits(told.log.len());
    each_fits(told.log.as_slice());
    each_fits(told.switches.as_slice());
    u64_fits(told.script);
    u64_fits(told.closing);
}

fn letters_fit(letters: &Mailbag<Octets>)
    ensures { AllByRecursion FitsLetter letters.now }
{
    for index in 0..letters.len() {
        actor_fits(letters.receiver(index));
        bytes_fit(letters.bytes(index));
    }
}

fn head_fits(head: &Head)
    ensures { (letters : List (Letter (List ℕ))) → AllByRecursion FitsLetter letters → FitsEntry (whole_entry letters head.now) }
{
    match head {
        Head::Post {
            actor,
            first,
            count,
            lost,
        } => {
            actor_fits(*actor);
            count_fits(*first);
            count_fits(*count);
            u64_fits(*lost);
        }
        Head::Draw { actor, id, .. } | Head::Lose { actor, id } => {
            actor_fits(*actor);
            u64_fits(*id);
        }
        Head::Local { actor, input } => {
            actor_fits(*actor);
            input_fits(input);
        }
        Head::Idle { actor } | Head::Refused { actor } => actor_fits(*actor),
    }
}

/// So it is with the entries of a journal that are kept apart from their letters.
pub fn journal_fits(heads: &[Head], letters: &Mailbag<Octets>)
    ensures { AllByRecursion FitsEntry (map (whole_entry letters.now) heads.now) }
{
    letters_fit(letters);
    for head in heads {
        head_fits(head);
    }
}
