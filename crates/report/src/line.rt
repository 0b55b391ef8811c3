//! A line as it is made of its words.
ghost use Rattle.std.specs.Prelude.{◌≡◌, ◌≤◌, ◌<◌, ◌+◌, ◌++◌, ◌∷◌, [], length, OnOk};
ghost use Rattle.std.specs.Fmt.{decimal};
ghost use Rattle.report.specs.Report as report;
ghost use Rattle.report.specs.Report.{word, newline, hex};

use crate::sheet::Sheet;
use crate::words::{write_hex, write_hex_of, write_newline};
use itoa::{Buffer, Integer};
use journal::Actor;
use of_bytes::Front;
use of_types::Octets;
use std::alloc::{AllocError, Global};
use std::marker::Model;

/// How many bytes of small words there is room for.
const LINE: usize = 128;

/// The small words of a line, which are made in one value and then written at once. Contracts see it as its bytes. Its calls are
/// inlined: most words are of one or two bytes.
#[derive(Drop)]
pub struct Line {
    bytes: Front<LINE>,
}

impl Model for Line {
    ghost use Rattle.std.specs.Prelude.{List, ℕ};

    ghost Value = { List ℕ };

    ghost view = { λ line. line.bytes };
}

impl Line {
    /// No words yet.
    #[inline(always)]
    pub fn new() -> Line
        ensures bytes { result ≡ [] }
        ensures len { length result ≡ 0 }
    {
        Line {
            bytes: Front::new(),
        }
    }

    /// Puts the first word.
    #[inline(always)]
    pub fn begin(&mut self, text: &[u8])
        requires { length self.old + length text.now ≤ LINE }
        ensures bytes { self.new ≡ self.old ++ text.now }
        ensures len { length self.new ≡ length self.old + length text.now }
    {
        self.bytes.put_slice(text);
    }

    /// Puts a word.
    #[inline(always)]
    #[tactic(auto, unfolding(crate::specs::Report::word))]
    pub fn text(&mut self, text: &[u8])
        requires { length self.old + length text.now + 1 ≤ LINE }
        ensures bytes { self.new ≡ self.old ++ word text.now }
        ensures len { length self.new ≡ length self.old + length text.now + 1 }
    {
        self.bytes.put(*b" ");
        self.bytes.put_slice(text);
    }

    /// Puts a number, which mostly has one digit.
    #[inline(always)]
    #[tactic(auto, unfolding(crate::specs::Report::word, crate::specs::Report::number_text))]
    pub fn number(&mut self, n: u64)
        requires { length self.old + 21 ≤ LINE }
        ensures bytes { self.new ≡ self.old ++ word (report.number_text n) }
        ensures len { length self.new ≤ length self.old + 21 }
    {
        if n < 10 {
            self.bytes.put([b' ', b'0' + n as u8]);
        } else {
            self.bytes.put(*b" ");
            self.digits(n);
        }
    }

    /// Puts a sum over many numbers.
    #[tactic(auto, unfolding(crate::specs::Report::word, crate::specs::Report::number_text))]
    pub fn sum(&mut self, n: u128)
        requires { length self.old + 40 ≤ LINE }
        ensures bytes { self.new ≡ self.old ++ word (report.number_text n) }
        ensures len { length self.new ≤ length self.old + 40 }
    {
        self.bytes.put(*b" ");
        self.digits(n);
    }

    /// Puts a number, or a dash for none.
    #[tactic(auto, unfolding(crate::specs::Report::word, crate::specs::Report::number_or_dash, crate::specs::Report::number_text))]
    pub fn number_or_dash(&mut self, n: Option<u64>)
        requires { length self.old + 21 ≤ LINE }
        ensures bytes { self.new ≡ self.old ++ word (report.number_or_dash n) }
        ensures len { length self.new ≤ length self.old + 21 }
    {
        match n {
            None => self.bytes.put(*b" -"),
            Some(n) => self.number(n),
        }
    }

    /// Puts the name of an actor: `c` or `s`, and its number.
    #[inline(always)]
    #[tactic(auto, unfolding(crate::specs::Report::word, crate::specs::Report::actor_word))]
    pub fn actor(&mut self, actor: Actor)
        requires { length self.old + 5 ≤ LINE }
        ensures bytes { self.new ≡ self.old ++ word (report.actor_word actor) }
        ensures len { length self.new ≤ length self.old + 5 }
    {
        match actor {
            Actor::Controller(c) => self.name(b'c', c),
            Actor::Switch(s) => self.name(b's', s),
        }
    }

    /// Puts a controller, or a dash for none.
    #[tactic(auto, unfolding(crate::specs::Report::word, crate::specs::Report::master_word, crate::specs::Report::actor_word))]
    pub fn master(&mut self, master: Option<u8>)
        requires { length self.old + 5 ≤ LINE }
        ensures bytes { self.new ≡ self.old ++ word (report.master_word master) }
        ensures len { length self.new ≤ length self.old + 5 }
    {
        match master {
            None => self.bytes.put(*b" -"),
            Some(c) => self.name(b'c', c),
        }
    }

    #[inline(always)]
    #[tactic(auto, unfolding(crate::specs::Report::word, crate::specs::Report::flag))]
    pub fn flag(&mut self, is_set: bool)
        requires { length self.old + 2 ≤ LINE }
        ensures bytes { self.new ≡ self.old ++ word (report.flag is_set) }
        ensures len { length self.new ≡ length self.old + 2 }
    {
        self.bytes.put(if is_set { *b" 1" } else { *b" 0" });
    }

    /// Puts an IPv4 address as its four bytes.
    #[tactic(auto, unfolding(crate::specs::Report::word, crate::specs::Report::address_word))]
    pub fn address(&mut self, address: u32)
        requires { length self.old + 16 ≤ LINE }
        ensures bytes { self.new ≡ self.old ++ word (report.address_word address) }
        ensures len { length self.new ≤ length self.old + 16 }
    {
        let [a, b, c, d] = address.to_be_bytes();
        self.bytes.put(*b" ");
        self.digits(a);
        self.bytes.put(*b".");
        self.digits(b);
        self.bytes.put(*b".");
        self.digits(c);
        self.bytes.put(*b".");
        self.digits(d);
    }

    /// Writes the words so far.
    #[inline(always)]
    pub fn write(&self, out: &mut Sheet) -> Result<(), AllocError>
        ensures { OnOk result (out.new ≡ out.old ++ self.now) }
    {
        out.append(self.bytes.as_slice())
    }

    /// Writes the line.
    #[inline(always)]
    pub fn end(&mut self, out: &mut Sheet) -> Result<(), AllocError>
        requires { length self.old < LINE }
        ensures { OnOk result (out.new ≡ out.old ++ (self.old ++ newline)) }
    {
        self.bytes.put(*b"\n");
        self.write(out)
    }

    /// Writes the line, with bytes as its last word. A long list of them is kept, and another is left in its place.
    #[inline(always)]
    pub fn end_with(
        &self,
        alloc: Global,
        out: &mut Sheet,
        bytes: &mut Octets,
    ) -> Result<(), AllocError>
        ensures { OnOk result (out.new ≡ out.old ++ (self.now ++ (word (hex bytes.old) ++ newline))) }
    {
        self.write(out)?;
        write_hex_of(alloc, out, bytes)?;
        write_newline(out)
    }

    /// Writes the line, with bytes as its last word, which stay where they are.
    #[inline(always)]
    pub fn end_with_bytes(&self, out: &mut Sheet, bytes: &[u8]) -> Result<(), AllocError>
        ensures { OnOk result (out.new ≡ out.old ++ (self.now ++ (word (hex bytes.now) ++ newline))) }
    {
        self.write(out)?;
        write_hex(out, bytes)?;
        write_newline(out)
    }

    /// Puts the digits of a number.
    fn digits<N: Integer>(&mut self, n: N)
        requires { length self.old + N.MAX_STR_LEN ≤ LINE }
        ensures bytes { self.new ≡ self.old ++ N.text n }
        ensures len { length self.new ≤ length self.old + N.MAX_STR_LEN }
    {
        self.bytes.put_slice(Buffer::new().format(n).as_bytes());
    }

    /// Puts a space, a letter and a number that mostly has one digit.
    #[inline(always)]
    fn name(&mut self, letter: u8, n: u8)
        requires { length self.old + 5 ≤ LINE }
        ensures bytes { self.new ≡ self.old ++ 32 ∷ letter ∷ decimal n }
        ensures len { length self.new ≤ length self.old + 5 }
    {
        if n < 10 {
            self.bytes.put([b' ', letter, b'0' + n]);
        } else {
            self.bytes.put([b' ', letter]);
            self.digits(n);
        }
    }
}
