// The jobs of one owner.
ghost use Rattle.std.specs.Prelude.{◌≡◌, ◌==◌, ◌+◌, ◌-◌, ◌<◌, ◌≤◌, [], ◌∷◌, ◌++◌, None, OnOk, OnErr, find, map, length, is_some, if◌then◌else◌, vec_len};
ghost use Rattle.std.specs.Option.{option_map, SomeIff};
ghost use Rattle.std.specs.Str.{bytes_eq};
ghost use Rattle.job_core.specs.Job.{stored};
ghost use Rattle.job_core.specs.Jobs.{IsOwnersList, numbered, report_in, judged_reports, judged_job, closed_job};

use crate::job::{Job, Judged, Verdict};
use indexmap::IndexMap;
use io_ports::PathText;
use std::alloc::{AllocError, Global};
use std::marker::Model;

/// The jobs of one owner by key, in the order of their numbers.
#[derive(Drop)]
pub(crate) struct OwnerJobs {
    jobs: IndexMap<String, Job>,
}

impl Model for OwnerJobs {
    ghost use Rattle.std.specs.Prelude.{List};
    ghost use Rattle.job_core.specs.Job.{StoredJob};
    ghost use Rattle.job_core.specs.OwnerJobs.{stored_jobs, IsOwnersMap};

    ghost Value = { List StoredJob };

    ghost view = { λ a. stored_jobs a.jobs.entries };

    ghost invariant = { λ a. IsOwnersMap a.jobs.entries };
}

impl OwnerJobs {
    /// No jobs.
    pub(crate) fn new(alloc: Global) -> OwnerJobs
        ensures { result ≡ [] }
    {
        OwnerJobs {
            jobs: IndexMap::new(alloc),
        }
    }

    /// How many jobs there are.
    pub(crate) fn count(&self) -> u32
        ensures count { result ≡ length self.now }
        ensures kept { IsOwnersList self.now }
    {
        self.jobs.len() as u32
    }

    /// The job under this key.
    pub(crate) fn by_key(&self, key: &str) -> Option<&Job>
        ensures { option_map (λ j. stored j.now) result ≡ find (λ j. bytes_eq key.now j.key) self.now }
    {
        self.jobs.get(key)
    }

    // The place of the job with this number.
    fn place_of(&self, number: u32) -> Option<usize>
        ensures place { SomeIff result ((0 < number) × (number ≤ length self.now)) (number - 1) }
        ensures kept { IsOwnersList self.now }
    {
        let len = self.jobs.len();
        let place = number.checked_sub(1)? as usize;
        (place < len).then_some(place)
    }

    /// The job with this number.
    pub(crate) fn job(&self, number: u32) -> Option<&Job>
        ensures { option_map (λ j. stored j.now) result ≡ find (λ j. number == j.head.job) self.now }
    {
        let place = self.place_of(number)?;
        Some(&self.jobs[place])
    }

    /// Adds a job behind the others.
    pub(crate) fn add(&mut self, alloc: Global, job: Job) -> Result<(), AllocError>
        requires new_key { find (λ j. bytes_eq job.key j.key) self.old ≡ None }
        requires room { length self.old < 10000 }
        requires number { job.head.job ≡ length self.old + 1 }
        requires reports { job.head.reports ≡ vec_len job.reports }
        ensures ok { OnOk result (self.new ≡ self.old ++ stored job ∷ []) }
        ensures kept { OnOk result (IsOwnersList self.new) }
        ensures err { OnErr result (self.new ≡ self.old) }
    {
        let key = String::from_str(alloc, job.key.as_str())?;
        self.jobs.insert(key, job)?;
        Ok(())
    }

    /// Sets the verdict and the note on report `n` of a job. Answers false where there is none.
    pub(crate) fn judge(&mut self, number: u32, n: u32, verdict: Verdict, note: PathText) -> bool
        ensures done { result ≡ is_some (report_in n (find (λ j. number == j.head.job) self.old)) }
        ensures jobs { self.new ≡ map (λ j. if number == j.head.job then judged_job n verdict note j else j) self.old }
        ensures kept { IsOwnersList self.new }
    {
        let Some(place) = self.place_of(number) else {
            return false;
        };
        let job = &mut self.jobs[place];
        judge_report(&mut job.reports, n, verdict, note)
    }

    /// Closes a job. Answers false where there is none.
    pub(crate) fn close(&mut self, number: u32) -> bool
        ensures done { result ≡ is_some (find (λ j. number == j.head.job) self.old) }
        ensures jobs { self.new ≡ map (λ j. if number == j.head.job then closed_job j else j) self.old }
        ensures kept { IsOwnersList self.new }
    {
        let Some(place) = self.place_of(number) else {
            return false;
        };
        let job = &mut self.jobs[place];
        job.head.closed = true;
        true
    }
}

// Sets the verdict and the note on report `n`, from 1. Answers false where there is none.
fn judge_report(reports: &mut Vec<Judged>, n: u32, verdict: Verdict, note: PathText) -> bool
    ensures done { result ≡ is_some (numbered n reports.old.items) }
    ensures reports { reports.new.items ≡ judged_reports n verdict note reports.old.items }
{
    let Some(at) = n.checked_sub(1) else {
        return false;
    };
    match reports.get_mut(at as usize) {
        Some(report) => {
            report.verdict = verdict;
            report.note = note;
            true
        }
        None => false,
    }
}
