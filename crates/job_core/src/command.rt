// Commands to the machine of jobs, and its replies.
use crate::job::{JobHead, Made, Verdict};
use io_ports::{Bytes, PathText};

/// What an owner asks of the machine.
#[derive(Drop)]
pub enum Command {
    /// Store what was made for this request, under a key of the owner's own.
    Add {
        owner: PathText,
        key: PathText,
        request: Bytes,
        made: Made,
    },
    /// Set the verdict and the note on report `n` (from 1) of a job.
    Judge {
        owner: PathText,
        job: u32,
        n: u32,
        verdict: Verdict,
        note: PathText,
    },
    /// Close a job.
    Close {
        owner: PathText,
        job: u32,
    },
}

/// What the machine answers.
#[derive(Drop)]
pub enum Reply {
    /// Done. The head of the job as it stands then.
    Head(JobHead),
    /// The key stands with another request.
    KeyTaken,
    /// The job is closed.
    Closed,
    /// The owner has 10,000 jobs.
    Full,
    /// The owner has no such job or report.
    NoSuch,
}
