// The tables of schema 1, and the statements on them.
use crate::refusal::Refusal;
use sqlite::{Alter, Connection, Statement};
use std::alloc::Global;

const TABLES: &str = "
CREATE TABLE IF NOT EXISTS job (
    owner TEXT NOT NULL, job INTEGER NOT NULL, key TEXT NOT NULL, request BLOB NOT NULL,
    status INTEGER NOT NULL, edits INTEGER NOT NULL, closed INTEGER NOT NULL,
    PRIMARY KEY (owner, job), UNIQUE (owner, key)
) STRICT;
CREATE TABLE IF NOT EXISTS file (
    owner TEXT NOT NULL, job INTEGER NOT NULL, n INTEGER NOT NULL, path TEXT NOT NULL,
    source BLOB NOT NULL, written BLOB NOT NULL,
    PRIMARY KEY (owner, job, n)
) STRICT;
CREATE TABLE IF NOT EXISTS report (
    owner TEXT NOT NULL, job INTEGER NOT NULL, n INTEGER NOT NULL, path TEXT NOT NULL,
    start INTEGER NOT NULL, stop INTEGER NOT NULL, code INTEGER NOT NULL, cause INTEGER NOT NULL,
    weight INTEGER NOT NULL, verdict INTEGER NOT NULL, note TEXT NOT NULL,
    PRIMARY KEY (owner, job, n)
) STRICT;
";

const ADD_JOB: &str =
    "INSERT INTO job (owner, job, key, request, status, edits, closed) VALUES (?1, ?2, ?3, ?4, ?5, ?6, ?7)";

const ADD_FILE: &str =
    "INSERT INTO file (owner, job, n, path, source, written) VALUES (?1, ?2, ?3, ?4, ?5, ?6)";

const ADD_REPORT: &str =
    "INSERT INTO report (owner, job, n, path, start, stop, code, cause, weight, verdict, note) VALUES (?1, ?2, ?3, ?4, ?5, ?6, ?7, ?8, ?9, ?10, ?11)";

const JUDGE: &str =
    "UPDATE report SET verdict = ?4, note = ?5 WHERE owner = ?1 AND job = ?2 AND n = ?3";

const CLOSE: &str = "UPDATE job SET closed = 1 WHERE owner = ?1 AND job = ?2";

const BY_KEY: &str =
    "SELECT job, status, edits, closed, request, (SELECT count(*) FROM report WHERE report.owner = job.owner AND report.job = job.job) FROM job WHERE owner = ?1 AND key = ?2";

const BY_NUMBER: &str =
    "SELECT job, status, edits, closed, request, (SELECT count(*) FROM report WHERE report.owner = job.owner AND report.job = job.job) FROM job WHERE owner = ?1 AND job = ?2";

const COUNT: &str = "SELECT count(*) FROM job WHERE owner = ?1";

const FILE: &str =
    "SELECT path, source, written FROM file WHERE owner = ?1 AND job = ?2 AND n = ?3";

const REPORTS: &str =
    "SELECT path, start, stop, code, cause, weight, verdict, note FROM report WHERE owner = ?1 AND job = ?2 ORDER BY n";

/// The statements, in the order of their texts.
#[derive(Clone, Copy)]
pub enum Wanted {
    AddJob,
    AddFile,
    AddReport,
    Judge,
    Close,
    ByKey,
    ByNumber,
    Count,
    File,
    Reports,
}

const TEXTS: [&str; 10] = [
    ADD_JOB, ADD_FILE, ADD_REPORT, JUDGE, CLOSE, BY_KEY, BY_NUMBER, COUNT, FILE, REPORTS,
];

/// Makes the tables, where they aren't there.
pub fn make_tables<S: Alter>(database: &mut Connection<S>) -> Result<(), Refusal> {
    run_all(database, TABLES)
}

fn run_all<S: Alter>(database: &mut Connection<S>, text: &str) -> Result<(), Refusal> {
    match database.execute_batch(text) {
        Ok(()) => Ok(()),
        Err(error) => Err(Refusal::from(error)),
    }
}

fn prepared<S: Alter>(database: &mut Connection<S>, text: &str) -> Result<Statement, Refusal> {
    match database.prepare(text) {
        Ok(statement) => Ok(statement),
        Err(error) => Err(Refusal::from(error)),
    }
}

fn keep(statements: &mut Vec<Statement>, statement: Statement) -> Result<(), Refusal> {
    match statements.push(statement) {
        Ok(()) => Ok(()),
        Err(_) => Err(Refusal::Memory),
    }
}

/// The statements, prepared.
pub fn prepare<S: Alter>(
    alloc: Global,
    database: &mut Connection<S>,
) -> Result<Vec<Statement>, Refusal> {
    let mut statements = Vec::new(alloc);
    for text in TEXTS {
        let statement = prepared(database, text)?;
        keep(&mut statements, statement)?;
    }
    Ok(statements)
}

/// The statement that is wanted, among those that are prepared.
pub fn statement(statements: &[Statement], wanted: Wanted) -> Result<&Statement, Refusal> {
    match statements.get(wanted as usize) {
        Some(statement) => Ok(statement),
        None => Err(Refusal::Failed),
    }
}
