// The files and the settings of a request for a new job.
ghost use Rattle.std.specs.Prelude.{IfOk};
ghost use Rattle.job_replies.specs.Received.{Receives};

use io_ports::PathText;
use review_bodies::{Upload, read_upload};
use std::alloc::{AllocError, Global};
use upload_order::in_path_order;

/// Files in the order of their paths, and the text of the settings.
#[derive(Drop)]
pub struct Received {
    pub files: Vec<(PathText, PathText)>,
    pub settings: PathText,
}

/// The files and the settings of a body. None: it has none.
pub(crate) fn receive(alloc: Global, body: &[u8]) -> Result<Option<Received>, AllocError>
    ensures { IfOk result (Receives body.now) }
{
    let Some(upload) = read_upload(alloc, body)? else {
        return Ok(None);
    };
    let Upload { files, settings } = upload;
    let Some(files) = in_path_order(files)? else {
        return Ok(None);
    };
    Ok(Some(Received { files, settings }))
}
