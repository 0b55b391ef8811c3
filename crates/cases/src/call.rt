//! A call of the program, and its answer.

use journal::FailingSave;
use of_types::Octets;
use std::alloc::{AllocError, Global};

/// A save that fails, and its controller.
#[derive(Clone, Copy)]
pub struct ControllerSave {
    pub controller: usize,
    pub save: FailingSave,
}

impl ControllerSave {
    /// As a line tells it: the controller, the number of its save from 1, and the pair that stands then.
    pub fn of(line: &str) -> Option<ControllerSave> {
        let (controller, rest) = line.split_once(' ')?;
        let (number, pair) = rest.split_once(' ')?;
        let keeps_new = match pair {
            "old" => false,
            "new" => true,
            _ => return None,
        };
        Some(ControllerSave {
            controller: controller.parse().ok()?,
            save: FailingSave {
                number: number.parse::<u64>().ok()?.checked_sub(1)?,
                keeps_new,
            },
        })
    }
}

/// A call: its words, what it reads, and the saves that fail in it.
#[derive(Drop)]
pub struct Call {
    pub words: Vec<String>,
    pub input: Octets,
    pub saves: Vec<ControllerSave>,
}

/// The status of a call, what it wrote, and how many saves failed in it.
#[derive(Drop)]
pub struct Answer {
    pub status: u8,
    pub written: Octets,
    pub failed_saves: u64,
}

impl Answer {
    /// Whether another call ended and wrote the same.
    pub fn is_same(&self, other: &Answer) -> bool {
        self.status == other.status && self.written.as_slice() == other.written.as_slice()
    }
}

impl Call {
    /// Whether it is to report the run of a scenario.
    pub fn is_sim(&self) -> bool {
        self.is("sim")
    }

    /// Whether it is to report a run whose actors are threads.
    pub fn is_run(&self) -> bool {
        self.is("run")
    }

    fn is(&self, word: &str) -> bool {
        matches!(self.words.as_slice(), [own] if own.as_str() == word)
    }
}

/// The words of a command line, which are parted by one space.
pub fn words_of(alloc: Global, line: &str) -> Result<Vec<String>, AllocError> {
    let mut words = Vec::new(alloc);
    for word in line.split(' ') {
        words.push(String::from_str(alloc, word)?)?;
    }
    Ok(words)
}
