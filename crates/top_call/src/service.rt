//! What serves a call.
ghost use Rattle.std.specs.Prelude.{◌≡◌};
ghost use Rattle.top_call.specs.Service.{service_of, limit_of};

use command_line::Job;
use report::REPORT_LIMIT;
use scenario::SCENARIO_LIMIT;

/// A job that reads.
#[derive(Clone, Copy)]
pub enum Reader {
    /// To play a scenario turn by turn, and to report the run.
    Sim,
    /// To play a scenario with a thread for each actor, and to report the run.
    Run,
    /// To audit a report.
    Audit,
}

/// What a job asks for.
#[derive(Clone, Copy)]
pub enum Service {
    /// To read, and to serve what was read.
    Reads(Reader),
    /// To play the scenario that four numbers make, and to tell the last line of its report.
    Gen {
        number: u32,
        controllers: u8,
        switches: u8,
        frames: u32,
    },
}

impl Service {
    /// What serves a job.
    pub fn of(job: Job) -> Service
        ensures { result ≡ service_of job }
    {
        match job {
            Job::Sim => Service::Reads(Reader::Sim),
            Job::Run => Service::Reads(Reader::Run),
            Job::Audit => Service::Reads(Reader::Audit),
            Job::Gen {
                number,
                controllers,
                switches,
                frames,
            } => Service::Gen {
                number,
                controllers,
                switches,
                frames,
            },
        }
    }
}

impl Reader {
    /// The most bytes that it reads.
    pub fn limit(self) -> usize
        ensures { result ≡ limit_of self }
    {
        match self {
            Reader::Sim | Reader::Run => SCENARIO_LIMIT,
            Reader::Audit => REPORT_LIMIT,
        }
    }
}
