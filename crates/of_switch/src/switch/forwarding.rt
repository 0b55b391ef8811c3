//! Where a switch sends frames (OpenFlow 1.3, 5.3 and 7.2.5).
ghost use Rattle.std.specs.Prelude.{◌≡◌, ◌≤◌, not, nat_eq, length, filter, flat_map, IfOk, OnOk, OnErr};
ghost use Rattle.flow_table.specs.Table.{chosen_row};
ghost use Rattle.of_switch.specs.State.{Turned, ports_up, rows_of};
ghost use Rattle.of_types.specs.declared.numbers.TheConstants.{LONGEST_FRAME};
ghost use Rattle.of_switch.specs.Forwarding.{is_frame, targets, over_link, over_links, is_table_miss, packet_in_of, frame_fields_at, through_row, counting_ports, on_frame};
ghost use Rattle.of_switch.specs.Drafts.{draft_of, with_letters, with_packet, with_sent, with_output, with_outputs, with_draft_row, untold, other_port};

use super::Switch;
use crate::draft::Draft;
use crate::letters::frame_letter;
use crate::says::SwitchSays;
use journal::Said;
use of_types::{
    ALL_PORTS, FLOOD, Fields, Happening, IN_PORT, Items, LONGEST_FRAME, Link, Octets, PacketIn,
    REASON_ACTION, REASON_NO_MATCH, Row, SHORTEST_FRAME, TO_CONTROLLER, fields, is_any,
};
use std::alloc::AllocError;

impl Switch {
    /// What a turn is to add, where nothing is new yet.
    pub(super) fn draft(&self) -> Draft
        ensures { result ≡ draft_of self.now }
    {
        let held = self.history.counts();
        Draft::new(self.alloc, held, 0, self.fence.master(), self.sent)
    }

    /// A frame at a port that is up meets the table. Any other is dropped.
    pub(super) fn on_frame(
        &mut self,
        port: u32,
        frame: Octets,
    ) -> Result<Said<SwitchSays>, AllocError>
        ensures ok { IfOk result (λ letters. Turned (on_frame self.old port frame) self.new letters) }
        ensures err { OnErr result (self.new ≡ self.old) }
    {
        if self.is_up(port) && is_frame_of(frame.as_slice()) {
            self.meet_table(port, frame)
        } else {
            drop(frame);
            Ok(Items::new(self.alloc))
        }
    }

    /// A frame meets the table. One that no row matches is dropped.
    fn meet_table(&mut self, port: u32, frame: Octets) -> Result<Said<SwitchSays>, AllocError>
        requires { length frame ≤ LONGEST_FRAME }
        ensures ok { IfOk result (λ letters. Turned (counting_ports port frame (through_row self.old port frame (chosen_row (rows_of self.old) (frame_fields_at port frame)))) self.new letters) }
        ensures err { OnErr result (self.new ≡ self.old) }
    {
        let fields = fields_of(port, frame.as_slice());
        let length = frame.len() as u32;
        let draft = self.through_table(&fields, port, frame)?;
        let letters = self.finish(draft)?;
        self.table.hit(&fields, length);
        Ok(letters)
    }

    /// What becomes of a frame with these fields that meets the table.
    fn through_table(&self, fields: &Fields, port: u32, frame: Octets) -> Result<Draft, AllocError>
        ensures { IfOk result (λ d. d ≡ with_draft_row self.now port frame (chosen_row (rows_of self.now) fields.now) (draft_of self.now)) }
    {
        let mut draft = self.draft();
        match self.table.look_up(fields) {
            Some(row) => self.put_all(&mut draft, row, port, frame)?,
            None => drop(frame),
        }
        Ok(draft)
    }

    /// A frame goes over the wires at one of its ports.
    fn send_over_links(
        &self,
        draft: &mut Draft,
        port: u32,
        frame: &Octets,
    ) -> Result<(), AllocError>
        ensures { OnOk result (draft.new ≡ with_letters draft.old (over_links self.now frame.now port)) }
    {
        let number = self.number();
        for link in self.links.as_slice() {
            send_over(draft, number, link, port, frame)?;
        }
        Ok(())
    }

    /// A frame goes to each port that is up, but the one that it came in by. Tells how many there are.
    fn flood(&self, draft: &mut Draft, in_port: u32, frame: &Octets) -> Result<u64, AllocError>
        ensures count { IfOk result (λ count. count ≡ length (filter (λ p. not (nat_eq p in_port)) (ports_up self.now))) }
        ensures letters { OnOk result (draft.new ≡ with_letters draft.old (flat_map (over_links self.now frame.now) (filter (λ p. not (nat_eq p in_port)) (ports_up self.now)))) }
    {
        let mut count = 0;
        for index in 0..self.ports() {
            count += self.send_by_other(draft, in_port, index + 1, frame)?;
        }
        Ok(count)
    }

    /// A frame goes to one of its ports, where it is up and not the one that it came in by. Tells how many ports that is.
    fn send_by_other(
        &self,
        draft: &mut Draft,
        in_port: u32,
        port: u32,
        frame: &Octets,
    ) -> Result<u64, AllocError>
        ensures count { IfOk result (λ count. count ≡ length (other_port self.now in_port port)) }
        ensures letters { OnOk result (draft.new ≡ with_letters draft.old (flat_map (over_links self.now frame.now) (other_port self.now in_port port))) }
    {
        if self.is_down(port) || port == in_port {
            return Ok(0);
        }
        self.send_over_links(draft, port, frame)?;
        Ok(1)
    }

    /// A frame goes to one port, where it is up. Tells how many ports that is.
    fn send_by(&self, draft: &mut Draft, port: u32, frame: &Octets) -> Result<u64, AllocError>
        ensures count { IfOk result (λ count. count ≡ length (filter (λ p. nat_eq p port) (ports_up self.now))) }
        ensures letters { OnOk result (draft.new ≡ with_letters draft.old (flat_map (over_links self.now frame.now) (filter (λ p. nat_eq p port) (ports_up self.now)))) }
    {
        if !self.is_up(port) {
            return Ok(0);
        }
        self.send_over_links(draft, port, frame)?;
        Ok(1)
    }

    /// A frame goes to the ports that an output names. Tells how many there are.
    fn send_to(
        &self,
        draft: &mut Draft,
        in_port: u32,
        output: u32,
        frame: &Octets,
    ) -> Result<u64, AllocError>
        ensures count { IfOk result (λ count. count ≡ length (targets self.now in_port output)) }
        ensures letters { OnOk result (draft.new ≡ with_letters draft.old (flat_map (over_links self.now frame.now) (targets self.now in_port output))) }
    {
        if output == FLOOD || output == ALL_PORTS {
            self.flood(draft, in_port, frame)
        } else if output == IN_PORT {
            self.send_by(draft, in_port, frame)
        } else if output == in_port {
            Ok(0)
        } else {
            self.send_by(draft, output, frame)
        }
    }

    /// A frame is sent out as an output says.
    fn send_out(
        &self,
        draft: &mut Draft,
        in_port: u32,
        output: u32,
        frame: &Octets,
    ) -> Result<(), AllocError>
        ensures { OnOk result (draft.new ≡ with_sent self.now frame.now (targets self.now in_port output) draft.old) }
    {
        let count = self.send_to(draft, in_port, output, frame)?;
        draft.count_sent(count);
        Ok(())
    }

    /// One output of a row for a frame.
    fn put_out(
        &self,
        draft: &mut Draft,
        row: &Row,
        port: u32,
        frame: &Octets,
        output: u32,
    ) -> Result<(), AllocError>
        ensures { OnOk result (draft.new ≡ with_output self.now (with_packet (packet_in_of row.now port frame.now)) port frame.now output draft.old) }
    {
        if output == TO_CONTROLLER {
            raise_packet(draft, row, port, frame.copy()?)
        } else {
            self.send_out(draft, port, output, frame)
        }
    }

    /// Each output of a row for a frame, in order.
    fn put_each(
        &self,
        draft: &mut Draft,
        row: &Row,
        port: u32,
        frame: &Octets,
    ) -> Result<(), AllocError>
        ensures { OnOk result (draft.new ≡ with_outputs self.now (with_packet (packet_in_of row.now port frame.now)) port frame.now row.now.actions draft.old) }
    {
        for output in row.actions.as_slice() {
            self.put_out(draft, row, port, frame, *output)?;
        }
        Ok(())
    }

    /// The same. Where the controller is the only one to have the frame, it is not copied.
    fn put_all(
        &self,
        draft: &mut Draft,
        row: &Row,
        port: u32,
        frame: Octets,
    ) -> Result<(), AllocError>
        ensures { OnOk result (draft.new ≡ with_outputs self.now (with_packet (packet_in_of row.now port frame)) port frame row.now.actions draft.old) }
    {
        if let [TO_CONTROLLER] = row.actions.as_slice() {
            return raise_packet(draft, row, port, frame);
        }
        let put = self.put_each(draft, row, port, &frame);
        drop(frame);
        put
    }

    /// Each output of a PACKET_OUT for a frame, in order. None goes to the controller.
    pub(super) fn send_all(
        &self,
        draft: &mut Draft,
        in_port: u32,
        frame: &Octets,
        outputs: &[u32],
    ) -> Result<(), AllocError>
        ensures { OnOk result (draft.new ≡ with_outputs self.now untold in_port frame.now outputs.now draft.old) }
    {
        for output in outputs {
            if *output != TO_CONTROLLER {
                self.send_out(draft, in_port, *output, frame)?;
            }
        }
        Ok(())
    }
}

/// A frame goes over a wire that begins, or ends, at a port of a switch.
fn send_over(
    draft: &mut Draft,
    number: u8,
    link: &Link,
    port: u32,
    frame: &Octets,
) -> Result<(), AllocError>
    ensures { OnOk result (draft.new ≡ with_letters draft.old (over_link frame.now number port link.now)) }
{
    if link.switch == number && link.port == port {
        draft.say(frame_letter(link.peer, link.peer_port, frame)?)
    } else if link.peer == number && link.peer_port == port {
        draft.say(frame_letter(link.switch, link.port, frame)?)
    } else {
        Ok(())
    }
}

/// Whether a frame may be taken and sent.
pub(super) fn is_frame_of(frame: &[u8]) -> bool
    ensures { result ≡ is_frame frame.now }
{
    SHORTEST_FRAME <= frame.len() && frame.len() <= LONGEST_FRAME
}

/// The fields of a frame that came in by a port.
fn fields_of(port: u32, frame: &[u8]) -> Fields
    ensures { result ≡ frame_fields_at port frame.now }
{
    Fields {
        in_port: Some(port),
        ..fields(frame)
    }
}

/// Whether a row is a table-miss row (OpenFlow 1.3, 5.4).
fn is_miss(row: &Row) -> bool
    ensures { result ≡ is_table_miss row.now }
{
    row.priority == 0 && is_any(&row.matching)
}

/// A frame as a packet-in.
fn packet_in(row: &Row, port: u32, frame: Octets) -> Happening
    ensures { result ≡ packet_in_of row.now port frame }
{
    Happening::PacketIn(PacketIn {
        reason: if is_miss(row) {
            REASON_NO_MATCH
        } else {
            REASON_ACTION
        },
        cookie: row.cookie,
        in_port: port,
        payload: frame,
    })
}

/// A frame goes to the controller: a packet-in that finds no room is dropped.
fn raise_packet(draft: &mut Draft, row: &Row, port: u32, frame: Octets) -> Result<(), AllocError>
    ensures { OnOk result (draft.new ≡ with_packet (packet_in_of row.now port frame) draft.old) }
{
    if draft.is_full() {
        drop(frame);
        return Ok(());
    }
    draft.raise(packet_in(row, port, frame))
}
