// Jobs in a database that is opened at the first call.
use crate::calls;
use crate::place::Place;
use crate::refusal::Refusal;
use crate::store::Store;
use job_core::{Job, JobFile, JobHead, Judged, Verdict};
use std::alloc::Global;

/// Jobs in a database, which is opened at the first call. Where that is refused, nothing stays open.
#[derive(Drop)]
pub struct KeptJobs<P: Place + Drop> {
    alloc: Global,
    place: P,
    store: Option<Store<P::Disk>>,
}

impl<P: Place + Drop> KeptJobs<P> {
    /// The jobs of a database that isn't opened yet.
    pub fn new(alloc: Global, place: P) -> KeptJobs<P> {
        KeptJobs {
            alloc,
            place,
            store: None,
        }
    }

    // Opens the database, where it isn't open.
    fn ready(&mut self) -> Result<(), Refusal> {
        if self.store.is_none() {
            self.store = Some(Store::new(self.alloc, self.place.connect()?)?);
        }
        Ok(())
    }

    // The open database.
    fn open(&mut self) -> Result<&mut Store<P::Disk>, Refusal> {
        self.ready()?;
        match &mut self.store {
            Some(store) => Ok(store),
            None => Err(Refusal::Failed),
        }
    }

    /// The head of the owner's job under this key.
    pub fn by_key(&mut self, owner: &str, key: &str) -> Result<Option<JobHead>, Refusal> {
        calls::by_key(self.open()?, owner, key)
    }

    /// The head of the owner's job with this number.
    pub fn head(&mut self, owner: &str, job: u32) -> Result<Option<JobHead>, Refusal> {
        calls::head(self.open()?, owner, job)
    }

    /// How many jobs the owner has.
    pub fn count(&mut self, owner: &str) -> Result<u32, Refusal> {
        calls::count(self.open()?, owner)
    }

    /// Adds a job with its files and reports, all in one transaction.
    pub fn add(&mut self, job: &Job) -> Result<(), Refusal> {
        calls::add(self.open()?, job)
    }

    /// File `n`, from 1, of the owner's job.
    pub fn file(&mut self, owner: &str, job: u32, n: u32) -> Result<Option<JobFile>, Refusal> {
        calls::file(self.open()?, owner, job, n)
    }

    /// The reports of the owner's job, in order.
    pub fn reports(
        &mut self,
        alloc: Global,
        owner: &str,
        job: u32,
    ) -> Result<Option<Vec<Judged>>, Refusal> {
        calls::reports(alloc, self.open()?, owner, job)
    }

    /// Sets the verdict and the note on report `n`. Answers false where there is none.
    pub fn judge(
        &mut self,
        owner: &str,
        job: u32,
        n: u32,
        verdict: Verdict,
        note: &str,
    ) -> Result<bool, Refusal> {
        calls::judge(self.open()?, owner, job, n, verdict, note)
    }

    /// Closes a job. Answers false where there is none.
    pub fn close(&mut self, owner: &str, job: u32) -> Result<bool, Refusal> {
        calls::close(self.open()?, owner, job)
    }
}
