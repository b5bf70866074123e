// The declarations of a program, one after another.
ghost use Rattle.std.specs.Prelude.{◌≡◌, ◌<◌, Some, length, slice_get, option_copied, IfOk};
ghost use Rattle.declared_twice.specs.Keys.{declaration_of, declared_in, lent};

use program_names::{Declaration, Told};
use std::alloc::{AllocError, Global};

// The declaration that is told, if it is one.
fn declaration_in(told: &Told) -> Option<&Declaration>
    ensures { option_copied result ≡ declaration_of told.now }
{
    match told {
        Told::Declares(declaration) => Some(declaration),
        Told::Extends(_, _) => None,
        Told::Includes(_, _) => None,
    }
}

/// The declarations that are told, in their order.
pub(crate) fn declared(alloc: Global, told: &[Told]) -> Result<Vec<&Declaration>, AllocError>
    ensures { IfOk result (λ ds. lent ds.items ≡ declared_in told.now) }
{
    let mut all = Vec::new(alloc);
    for one in told {
        let declaration = match declaration_in(one) {
            Some(declaration) => declaration,
            None => continue,
        };
        all.push(declaration)?;
    }
    Ok(all)
}

/// The declaration at a place.
pub(crate) fn declaration_at<'a>(declared: &[&'a Declaration], place: usize) -> &'a Declaration
    requires { place < length declared.now }
    ensures { slice_get (lent declared.now) place ≡ Some result.now }
{
    declared[place]
}
