//! What a text is written to.
ghost use Rattle.std.specs.Prelude.{◌≡◌, ◌≤◌, ◌*◌, ◌++◌, ℕ, List, [], length, IfOk, OnOk};
ghost use Rattle.report.specs.Report.{hex_of};

use crate::parts::{Part, ReportText};
use crate::room::{ROOM, Room};
use of_types::{Items, Octets};
use std::alloc::{AllocError, Global};
use std::marker::Model;
use std::mem::replace;

/// How many bytes a body has at least that is kept as it is.
const LONG: usize = 512;

/// What grows at its end as a text is written.
pub trait Growing {
    ghost bytes: { Self → List ℕ };

    /// Appends bytes.
    fn put(&mut self, more: &[u8]) -> Result<(), AllocError>
        ensures { OnOk result (bytes self.new ≡ bytes self.old ++ more.now) };
}

impl Growing for Octets {
    ghost bytes = { λ list. list };

    fn put(&mut self, more: &[u8]) -> Result<(), AllocError> {
        self.append(more)
    }
}

/// The bytes of a text so far: parts with long bodies, which are kept as they are, and the words behind them. Words are small: the
/// last bytes wait in the value itself and are moved to the list many at a time. Contracts see it as all of its bytes.
#[derive(Drop)]
pub struct Sheet {
    /// The parts, each up to a long body and with it.
    parts: Items<Part>,
    /// The words behind the last part, but for those that wait.
    written: Octets,
    /// The last words, which are moved behind `written` many at a time.
    waiting: Room,
}

impl Model for Sheet {
    ghost use Rattle.std.specs.Prelude.{List, ℕ, ◌++◌};
    ghost use Rattle.report.specs.Parts.{parts_text};

    ghost Value = { List ℕ };

    ghost view = { λ sheet. parts_text sheet.parts ++ (sheet.written ++ sheet.waiting) };
}

impl Sheet {
    /// An empty sheet, which takes no memory.
    pub fn new(alloc: Global) -> Sheet
        ensures { result ≡ [] }
    {
        Sheet {
            parts: Items::new(alloc),
            written: Octets::new(alloc),
            waiting: Room::new(),
        }
    }

    /// Appends bytes.
    #[inline(always)]
    pub fn append(&mut self, bytes: &[u8]) -> Result<(), AllocError>
        ensures { OnOk result (self.new ≡ self.old ++ bytes.now) }
    {
        if bytes.len() <= self.waiting.free() {
            self.waiting.put(bytes);
            Ok(())
        } else {
            self.append_behind(bytes)
        }
    }

    /// Appends the digits of bytes in base sixteen, two for each. Inlined, its loops would take the registers of those who write
    /// other words.
    #[inline(never)]
    pub fn append_hex(&mut self, bytes: &[u8]) -> Result<(), AllocError>
        ensures { OnOk result (self.new ≡ self.old ++ hex_of bytes.now) }
    {
        let mut rest = bytes;
        'pieces: while !rest.is_empty() {
            let (piece, behind) = rest.split_at(rest.len().min(ROOM / 2));
            self.append_pairs(piece)?;
            rest = behind;
        }
        Ok(())
    }

    /// Appends the digits of bytes. A long list of them is kept, and another is left in its place.
    pub fn append_hex_of(&mut self, alloc: Global, bytes: &mut Octets) -> Result<(), AllocError>
        ensures { OnOk result (self.new ≡ self.old ++ hex_of bytes.old) }
    {
        if bytes.len() < LONG {
            return self.append_hex(bytes.as_slice());
        }
        let body = replace(bytes, Octets::new(alloc));
        self.keep(alloc, body)
    }

    /// The text.
    pub fn into_text(self) -> Result<ReportText, AllocError>
        ensures { IfOk result (λ text. text ≡ self) }
    {
        let Sheet {
            parts,
            mut written,
            waiting,
        } = self;
        written.append(waiting.as_slice())?;
        Ok(ReportText::new(parts, written))
    }

    /// Ends a part with a body.
    #[inline(never)]
    fn keep(&mut self, alloc: Global, body: Octets) -> Result<(), AllocError>
        ensures { OnOk result (self.new ≡ self.old ++ hex_of body) }
    {
        move_on(&mut self.written, &mut self.waiting)?;
        let words = replace(&mut self.written, Octets::new(alloc));
        self.parts.push(Part { words, body })?;
        Ok(())
    }

    /// Appends bytes for which there is no room among those that wait.
    #[cold]
    #[inline(never)]
    fn append_behind(&mut self, bytes: &[u8]) -> Result<(), AllocError>
        ensures { OnOk result (self.new ≡ self.old ++ bytes.now) }
    {
        move_on(&mut self.written, &mut self.waiting)?;
        if bytes.len() <= ROOM {
            self.waiting.put(bytes);
            Ok(())
        } else {
            self.written.append(bytes)
        }
    }

    /// Appends the digits of so many bytes as there is room for once no others wait.
    fn append_pairs(&mut self, bytes: &[u8]) -> Result<(), AllocError>
        requires { 2 * length bytes.now ≤ ROOM }
        ensures { OnOk result (self.new ≡ self.old ++ hex_of bytes.now) }
    {
        if 2 * bytes.len() > self.waiting.free() {
            move_on(&mut self.written, &mut self.waiting)?;
        }
        self.waiting.spell(bytes);
        Ok(())
    }
}

impl Growing for Sheet {
    ghost bytes = { λ sheet. sheet };

    #[inline(always)]
    fn put(&mut self, more: &[u8]) -> Result<(), AllocError> {
        self.append(more)
    }
}

/// Moves what waits to the list.
#[cold]
#[inline(never)]
fn move_on(written: &mut Octets, waiting: &mut Room) -> Result<(), AllocError>
    ensures moved { OnOk result (written.new ≡ written.old ++ waiting.old) }
    ensures left { OnOk result (waiting.new ≡ []) }
{
    written.append(waiting.as_slice())?;
    waiting.clear();
    Ok(())
}
