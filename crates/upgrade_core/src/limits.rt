// The sizes of a program.
ghost use Rattle.std.specs.Prelude.{◌≡◌, map};
ghost use Rattle.upgrade_core.specs.Files.{file_of};
ghost use Rattle.upgrade_core.specs.Limits as spec;

use crate::fault::{LimitFault, LimitKind};
use crate::file::SourceFile;

/// The greatest number of files.
pub const MAX_FILES: usize = 2_000;

/// The greatest number of bytes of a file.
pub const MAX_FILE_BYTES: usize = 1_048_576;

/// The greatest number of bytes of all files.
pub const MAX_ALL_BYTES: usize = 4_194_304;

// The first size of these files that passes its limit, behind files of so many bytes.
fn bytes_limit(files: &[SourceFile]) -> Option<LimitFault>
    ensures { result ≡ spec.bytes_limit 0 (map file_of files.now) }
{
    let mut sum = 0;
    for file in files {
        let count = file.bytes.as_slice().len();
        if count > MAX_FILE_BYTES {
            return Some(LimitFault {
                kind: LimitKind::FileBytes,
                number: MAX_FILE_BYTES as u64 + 1,
            });
        }
        if sum + count > MAX_ALL_BYTES {
            return Some(LimitFault {
                kind: LimitKind::AllBytes,
                number: MAX_ALL_BYTES as u64 + 1,
            });
        }
        sum += count;
    }
    None
}

/// The first size that passes its limit, if one does: the number of files, and then, file by file, its own bytes
/// and the bytes so far.
pub fn limit_of(files: &[SourceFile]) -> Option<LimitFault>
    ensures { result ≡ spec.limit_of (map file_of files.now) }
{
    if files.len() > MAX_FILES {
        return Some(LimitFault {
            kind: LimitKind::Files,
            number: files.len() as u64,
        });
    }
    bytes_limit(files)
}
