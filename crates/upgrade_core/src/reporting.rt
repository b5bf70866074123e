// Reports of a file, as sinks take them.
ghost use Rattle.std.specs.Prelude.{◌≡◌, OnOk, IfOk, map, count_by};
ghost use Rattle.syntax_upgrade.specs.Found.{found_of};
ghost use Rattle.upgrade_core.specs.Made as made;
ghost use Rattle.upgrade_core.specs.Upgrade as spec;

use io_ports::{PathText, Report, Weight};
use std::alloc::{AllocError, Global};
use syntax_upgrade::Found;

// Whether nothing is claimed after a report of this weight.
fn stops(weight: Weight) -> bool
    ensures { result ≡ spec.stops weight }
{
    match weight {
        Weight::Note => false,
        Weight::Stop | Weight::Compile => true,
    }
}

// The report of a place.
fn report_of(alloc: Global, path: &PathText, place: &Found) -> Result<Report, AllocError>
    ensures { IfOk result (λ r. spec.IsReportOf path.now (found_of place.now) r) }
{
    let path = path.copy(alloc)?;
    Ok(Report {
        path,
        span: place.span,
        code: place.code,
        cause: place.cause.number(),
        weight: place.weight,
    })
}

/// Puts the reports of a file's places behind others.
pub(crate) fn add_reports(
    alloc: Global,
    path: &PathText,
    places: &[Found],
    reports: &mut Vec<Report>,
) -> Result<(), AllocError>
    ensures { OnOk result (made.AreAdded path.now (map found_of places.now) reports.old.items reports.new.items) }
{
    for place in places {
        reports.push(report_of(alloc, path, place)?)?;
    }
    Ok(())
}

/// How many of a file's places are such that nothing is claimed after them.
pub(crate) fn count_stops(places: &[Found]) -> usize
    ensures { result ≡ count_by (λ place. spec.stops (found_of place).weight) places.now }
{
    places.iter().filter(|place| stops(place.weight)).count()
}
