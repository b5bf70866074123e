// A program, upgraded.
ghost use Rattle.std.specs.Prelude.{◌≡◌, ◌++◌, ◌+◌, ◌∷◌, [], ℕ, List, length, map, count_by, OnOk, IfOk};
ghost use Rattle.php_tree.specs.declared.version.Version.TheVariants.{V74};
ghost use Rattle.php_tree.specs.Tree.{file_printed};
ghost use Rattle.php_rows.specs.File.{file_in};
ghost use Rattle.php_reading.specs.Reading.{Reads};
ghost use Rattle.upgrade_core.specs.Made as spec;
ghost use Rattle.upgrade_core.specs.Rows.{AreAllRead, trees_of, tree_of};

use crate::file::SourceFile;
use crate::reporting::{add_reports, count_stops};
use io_ports::{Bytes, PathText, Report};
use php_rows::RowTree;
use rewritten_shapes::paired_laws::quoted_texts_are_walked;
use rule_tables::Settings;
use std::alloc::{AllocError, Global};
use syntax_upgrade::{Upgrade, rules_of, upgraded};

/// A program upgraded: its files for 8.3, how many edits made them, what is reported, by path, start, end and code, and
/// how many of the reports are such that nothing is claimed after them.
#[derive(Drop)]
pub struct Upgraded {
    pub files: Vec<SourceFile>,
    pub edits: u64,
    pub reports: Vec<Report>,
    pub stops: u64,
}

// One file upgraded, by the rules that are on.
fn upgrade_tree(alloc: Global, tree: &RowTree, settings: &Settings) -> Result<Upgrade, AllocError>
    requires { (bytes : List ℕ) × Reads V74 bytes (file_in tree.now) }
    ensures { IfOk result (λ u. spec.IsOfTree settings.now (file_in tree.now) u) }
{
    quoted_texts_are_walked();
    upgraded(alloc, tree, rules_of(settings))
}

// A number that stays within 64 bits.
fn sum(first: u64, second: usize) -> Result<u64, AllocError>
    ensures { IfOk result (λ n. n ≡ first + second) }
{
    first.checked_add(second as u64).ok_or(AllocError)
}

impl Upgraded {
    // Of no files.
    fn new(alloc: Global) -> Upgraded
        ensures { spec.IsNothing result }
    {
        Upgraded {
            files: Vec::new(alloc),
            edits: 0,
            reports: Vec::new(alloc),
            stops: 0,
        }
    }

    // Puts a file behind the others.
    fn add(&mut self, alloc: Global, path: &PathText, upgrade: Upgrade) -> Result<(), AllocError>
        ensures { OnOk result (spec.IsAdded path.now upgrade self.old self.new) }
    {
        self.edits = sum(self.edits, upgrade.edits)?;
        self.stops = sum(self.stops, count_stops(upgrade.reports.as_slice()))?;
        add_reports(alloc, path, upgrade.reports.as_slice(), &mut self.reports)?;
        self.files.push(SourceFile {
            path: path.copy(alloc)?,
            bytes: Bytes::new(upgrade.bytes),
        })?;
        Ok(())
    }
}

/// All files upgraded, by the rules that are on. The only error is want of memory.
pub(crate) fn upgrade_rows(
    alloc: Global,
    rows: &[(PathText, RowTree)],
    settings: &Settings,
) -> Result<Upgraded, AllocError>
    requires { AreAllRead rows.now }
    ensures { IfOk result (λ u. spec.IsOf settings.now (trees_of rows.now) u) }
{
    let mut all = Upgraded::new(alloc);
    for row in rows {
        let upgrade = upgrade_tree(alloc, &row.1, settings)?;
        all.add(alloc, &row.0, upgrade)?;
    }
    Ok(all)
}
