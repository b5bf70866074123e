// What a request asks for.
ghost use Rattle.std.specs.Prelude.{◌≡◌, IfOk};
ghost use Rattle.std.specs.List.{before_first, after_first, position};
ghost use Rattle.review_request.specs.Frame.{method_of};
ghost use Rattle.review_request.specs.Routes.{ask_at, ask_in, is_slash, part, routes};

use crate::number::path_number;
use matchit::{InsertError, Router};
use std::alloc::Global;

/// The six routes.
#[derive(Clone, Copy, PartialEq, Eq)]
pub enum Route {
    Jobs,
    Job,
    File,
    Reports,
    Report,
    Close,
}

/// What a request asks for, with the numbers of its path.
#[derive(Clone, Copy, Debug, PartialEq, Eq)]
pub enum Ask {
    /// A new job.
    Add,
    /// The head of a job.
    Head { job: u32 },
    /// File `n` of a job.
    File { job: u32, n: u32 },
    /// The reports of a job.
    Reports { job: u32 },
    /// A verdict on report `n` of a job.
    Judge { job: u32, n: u32 },
    /// That a job is closed.
    Close { job: u32 },
}

impl Ask {
    /// The method that it is asked for by: GET, or POST where it changes something.
    pub fn method(self) -> &'static str
        ensures { result.now ≡ method_of self }
    {
        match self {
            Ask::Add | Ask::Judge { .. } | Ask::Close { .. } => "POST",
            Ask::Head { .. } | Ask::File { .. } | Ask::Reports { .. } => "GET",
        }
    }
}

// The table of routes. The only error is want of memory.
fn routes(alloc: Global) -> Result<Router<Route>, InsertError>
    ensures { IfOk result (λ router. router ≡ routes) }
{
    let mut router = Router::new(alloc);
    router.insert("/jobs", Route::Jobs)?;
    router.insert("/jobs/{job}", Route::Job)?;
    router.insert("/jobs/{job}/files/{n}", Route::File)?;
    router.insert("/jobs/{job}/reports", Route::Reports)?;
    router.insert("/jobs/{job}/reports/{n}", Route::Report)?;
    router.insert("/jobs/{job}/close", Route::Close)?;
    Ok(router)
}

// The place of the first slash.
fn slash_in(path: &[u8]) -> Option<usize>
    ensures { result ≡ position is_slash path.now }
{
    path.iter().position(|b| *b == b'/')
}

// What stands before the first slash, or all.
#[tactic(auto, using(crate::proofs::SlashLemmas::before_some, crate::proofs::SlashLemmas::before_none))]
fn before_slash(path: &[u8]) -> &[u8]
    ensures { result.now ≡ before_first is_slash path.now }
{
    match slash_in(path) {
        Some(at) => &path[..at],
        None => path,
    }
}

// What stands behind the first slash, or nothing.
#[tactic(auto, using(crate::proofs::SlashLemmas::after_some, crate::proofs::SlashLemmas::after_none))]
fn behind_slash(path: &[u8]) -> &[u8]
    ensures { result.now ≡ after_first is_slash path.now }
{
    match slash_in(path) {
        Some(at) => path.split_at(at + 1).1,
        None => &[],
    }
}

// What stands behind two slashes of a path, up to the next one.
fn second_part(path: &[u8]) -> &[u8]
    ensures { result.now ≡ part 2 path.now }
{
    before_slash(behind_slash(behind_slash(path)))
}

// What stands behind four slashes of a path, up to the next one.
fn fourth_part(path: &[u8]) -> &[u8]
    ensures { result.now ≡ part 4 path.now }
{
    second_part(behind_slash(behind_slash(path)))
}

// What a route asks for, with the numbers of the path.
fn ask_in(route: Route, path: &[u8]) -> Option<Ask>
    ensures { result ≡ ask_in path.now route }
{
    let job = path_number(second_part(path));
    let n = path_number(fourth_part(path));
    match route {
        Route::Jobs => Some(Ask::Add),
        Route::Job => Some(Ask::Head { job: job? }),
        Route::Reports => Some(Ask::Reports { job: job? }),
        Route::Close => Some(Ask::Close { job: job? }),
        Route::File => Some(Ask::File { job: job?, n: n? }),
        Route::Report => Some(Ask::Judge { job: job?, n: n? }),
    }
}

/// What a path asks for, if it has a route. The only error is want of memory.
pub fn ask_of(alloc: Global, path: &str) -> Result<Option<Ask>, InsertError>
    ensures { IfOk result (λ ask. ask ≡ ask_at path.now) }
{
    let router = routes(alloc)?;
    match router.at(path) {
        Ok(found) => Ok(ask_in(*found.value, path.as_bytes())),
        Err(_) => Ok(None),
    }
}
