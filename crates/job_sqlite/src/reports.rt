// Reports as rows.
use crate::numbers::{
    number_at, small_at, span_at, text_at, verdict_number, verdict_of, weight_number, weight_of,
};
use crate::refusal::Refusal;
use crate::store::Store;
use crate::tables::Wanted;
use io_ports::Report;
use job_core::{Job, Judged};
use sqlite::{Alter, Row, params};
use std::alloc::Global;

// A report in the order of the columns of its query.
fn report_of(row: &Row) -> Result<Report, Refusal> {
    let span = span_at(row, 1, 2)?;
    let code = small_at(row, 3)?;
    let cause = small_at(row, 4)?;
    let weight = weight_of(number_at(row, 5)?)?;
    let path = text_at(row, 0)?;
    Ok(Report {
        path,
        span,
        code,
        cause,
        weight,
    })
}

// The same with its verdict and note.
fn judged_of(row: &Row) -> Result<Judged, Refusal> {
    let verdict = verdict_of(number_at(row, 6)?)?;
    let report = report_of(row)?;
    let note = text_at(row, 7)?;
    Ok(Judged {
        report,
        verdict,
        note,
    })
}

/// The reports of these rows, in order.
pub fn reports_of(alloc: Global, rows: &[Row]) -> Result<Vec<Judged>, Refusal> {
    let mut reports = Vec::new(alloc);
    for row in rows {
        let judged = judged_of(row)?;
        keep(&mut reports, judged)?;
    }
    Ok(reports)
}

fn keep(reports: &mut Vec<Judged>, judged: Judged) -> Result<(), Refusal> {
    match reports.push(judged) {
        Ok(()) => Ok(()),
        Err(_) => Err(Refusal::Memory),
    }
}

// Inserts one row.
fn add_report<S: Alter + Drop>(
    store: &mut Store<S>,
    job: &Job,
    n: i64,
    judged: &Judged,
) -> Result<(), Refusal> {
    let report = &judged.report;
    let params = params![
        job.owner.as_str(),
        i64::from(job.head.job),
        n,
        report.path.as_str(),
        i64::from(report.span.start),
        i64::from(report.span.end),
        i64::from(report.code),
        i64::from(report.cause),
        weight_number(report.weight),
        verdict_number(judged.verdict),
        judged.note.as_str(),
    ];
    store.change(Wanted::AddReport, params)?;
    Ok(())
}

/// Inserts a row for each report.
pub fn add_reports<S: Alter + Drop>(store: &mut Store<S>, job: &Job) -> Result<(), Refusal> {
    let mut n = 0i64;
    for judged in &job.reports {
        n = n.saturating_add(1);
        add_report(store, job, n, judged)?;
    }
    Ok(())
}
