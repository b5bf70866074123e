// How a run ends, and why it stops.
ghost use Rattle.std.specs.Prelude.{◌≡◌};
ghost use Rattle.upgrade_cli.specs.Run as spec;
ghost use Rattle.upgrade_cli.specs.Stops as stops;

use command_words::WordsFault;
use io_ports::{Bytes, PathText, PortFault};
use rule_tables::SettingsFault;
use std::alloc::AllocError;
use upgrade_core::{LimitFault, Place};

/// How a run ended.
#[derive(Clone, Copy, Debug, PartialEq, Eq)]
pub enum Status {
    /// All was done.
    Done,
    /// All was done, and a report stands that stops the claim.
    Reported,
    /// The words are not in the grammar.
    Usage,
    /// A source has no tree.
    Source,
    /// The settings are absent or refused.
    Settings,
    /// The names of the program are refused.
    Names,
    /// A size passes its limit.
    Limit,
    /// The source, a sink, the target or `out` failed.
    Fault,
    /// No memory was at hand.
    Memory,
}

/// The exit status of a program that ran so.
pub fn status_number(status: Status) -> u8
    ensures { result ≡ spec.number_of status }
{
    match status {
        Status::Done => 0,
        Status::Reported => 2,
        Status::Usage => 64,
        Status::Source => 65,
        Status::Settings => 66,
        Status::Names => 67,
        Status::Limit => 68,
        Status::Fault => 74,
        Status::Memory => 71,
    }
}

/// Why the names of a program are refused, with the places that are told.
#[derive(Drop)]
pub enum NamesStop {
    /// One run would begin with two declarations of this function, class or constant.
    Twice {
        name: Bytes,
        first: Place,
        second: Place,
    },
    /// Each of these classes extends the next one, and the last one the first.
    Cycle(Vec<Bytes>),
    /// A file that the settings name isn't there.
    NoFile(PathText),
}

/// Why a run stopped before its work was done.
#[derive(Drop)]
pub enum Stop {
    /// The words are not in the grammar.
    Usage,
    /// A size passes its limit.
    Limit(LimitFault),
    /// There is no settings file.
    NoSettings,
    /// The settings are refused.
    Settings(SettingsFault),
    /// The file of this path has no tree.
    Source(PathText),
    /// The names are refused.
    Names(NamesStop),
    /// The source failed.
    SourceFault,
    /// A sink of reports failed.
    SinkFault,
    /// The target failed.
    TargetFault,
    /// No memory was at hand.
    Memory,
}

impl From<AllocError> for Stop {
    ghost use Rattle.std.specs.Prelude.{◌≡◌};
    ghost use Rattle.upgrade_cli.specs.declared.stop.Stop.TheVariants.{Memory};

    ghost from_gives = { λ _ e. e ≡ Memory };

    fn from(_: AllocError) -> Self {
        Stop::Memory
    }
}

/// What a run did: how many files it upgraded, by how many edits, how many reports stand, and how many of these stop the
/// claim.
#[derive(Clone, Copy, Debug, PartialEq, Eq)]
pub struct Summary {
    pub files: usize,
    pub edits: u64,
    pub reports: usize,
    pub stops: u64,
}

// The status where all was done.
fn of_done(is_claimed: bool) -> Status
    ensures { result ≡ spec.of_done is_claimed }
{
    if is_claimed {
        Status::Done
    } else {
        Status::Reported
    }
}

/// The status of what a run came to.
pub fn status_of(came: &Result<Summary, Stop>) -> Status
    ensures { result ≡ spec.status_of came.now }
{
    match came {
        Ok(summary) => of_done(summary.stops == 0),
        Err(Stop::Usage) => Status::Usage,
        Err(Stop::Limit(_)) => Status::Limit,
        Err(Stop::NoSettings) => Status::Settings,
        Err(Stop::Settings(_)) => Status::Settings,
        Err(Stop::Source(_)) => Status::Source,
        Err(Stop::Names(_)) => Status::Names,
        Err(Stop::SourceFault) => Status::Fault,
        Err(Stop::SinkFault) => Status::Fault,
        Err(Stop::TargetFault) => Status::Fault,
        Err(Stop::Memory) => Status::Memory,
    }
}

/// Why a run stops where the source refused.
pub fn source_stop(fault: PortFault) -> Stop
    ensures { result ≡ stops.source_stop fault }
{
    match fault {
        PortFault::Failed => Stop::SourceFault,
        PortFault::Memory => Stop::Memory,
    }
}

/// Why a run stops where the target refused.
pub fn target_stop(fault: PortFault) -> Stop
    ensures { result ≡ stops.target_stop fault }
{
    match fault {
        PortFault::Failed => Stop::TargetFault,
        PortFault::Memory => Stop::Memory,
    }
}

/// Why a run stops where the words were refused.
pub fn words_stop(fault: WordsFault) -> Stop
    ensures { result ≡ stops.words_stop fault }
{
    match fault {
        WordsFault::Refused => Stop::Usage,
        WordsFault::Memory => Stop::Memory,
    }
}

/// Why a run stops where the settings were refused.
pub fn settings_stop(fault: SettingsFault) -> Stop
    ensures { result ≡ stops.settings_stop fault }
{
    match fault {
        SettingsFault::Memory => Stop::Memory,
        other => Stop::Settings(other),
    }
}
