// A database of jobs.
use crate::refusal::Refusal;
use crate::tables::{Wanted, make_tables, prepare, statement};
use sqlite::types::ValueRef;
use sqlite::{Alter, Connection, Row, Statement};
use std::alloc::Global;

/// A database with its prepared statements.
#[derive(Drop)]
pub struct Store<S: Alter + Drop> {
    database: Connection<S>,
    statements: Vec<Statement>,
}

impl<S: Alter + Drop> Store<S> {
    /// This database, in which the tables are made where there are none.
    pub fn new(alloc: Global, mut database: Connection<S>) -> Result<Store<S>, Refusal> {
        let statements = made(alloc, &mut database)?;
        Ok(Store {
            database,
            statements,
        })
    }

    /// All rows of a query.
    pub fn rows(&mut self, query: Wanted, params: &[ValueRef<'_>]) -> Result<Vec<Row>, Refusal> {
        let query = statement(self.statements.as_slice(), query)?;
        rows_of(&mut self.database, query, params)
    }

    /// How many rows a write changed.
    pub fn change(&mut self, change: Wanted, params: &[ValueRef<'_>]) -> Result<usize, Refusal> {
        let change = statement(self.statements.as_slice(), change)?;
        changed(&mut self.database, change, params)
    }

    /// Begins a transaction.
    pub fn begin(&mut self) -> Result<(), Refusal> {
        run(&mut self.database, "BEGIN")
    }

    /// Ends a transaction: keeps what was changed in it where that was done, and else puts all back.
    pub fn end(&mut self, done: Result<(), Refusal>) -> Result<(), Refusal> {
        let kept = match done {
            Ok(()) => run(&mut self.database, "COMMIT"),
            Err(refusal) => Err(refusal),
        };
        if kept.is_err() {
            let _undone = run(&mut self.database, "ROLLBACK");
        }
        kept
    }
}

// The statements of a database, whose tables are made where there are none.
fn made<S: Alter>(alloc: Global, database: &mut Connection<S>) -> Result<Vec<Statement>, Refusal> {
    make_tables(database)?;
    prepare(alloc, database)
}

fn rows_of<S: Alter>(
    database: &mut Connection<S>,
    statement: &Statement,
    params: &[ValueRef<'_>],
) -> Result<Vec<Row>, Refusal> {
    match statement.query_all(database, params) {
        Ok(rows) => Ok(rows),
        Err(error) => Err(Refusal::from(error)),
    }
}

fn changed<S: Alter>(
    database: &mut Connection<S>,
    statement: &Statement,
    params: &[ValueRef<'_>],
) -> Result<usize, Refusal> {
    match statement.execute(database, params) {
        Ok(count) => Ok(count),
        Err(error) => Err(Refusal::from(error)),
    }
}

fn run<S: Alter>(database: &mut Connection<S>, text: &str) -> Result<(), Refusal> {
    match database.execute(text, &[]) {
        Ok(_) => Ok(()),
        Err(error) => Err(Refusal::from(error)),
    }
}
