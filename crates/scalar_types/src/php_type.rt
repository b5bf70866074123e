// Types.
ghost use Rattle.std.specs.Prelude.{◌≡◌, ◌<◌, ◌↔◌, IsTrue, IfOk};
ghost use Rattle.scalar_types.specs.Terms.{term, any, plain, array, facts_of, with_labels, of_bits, IsWellFormed};
ghost use Rattle.std.specs.Int.{bit_at};

use crate::labels::{Classes, Labels};
use std::alloc::{AllocError, Global};

/// The type of an expression, a variable or a cell.
#[cycle(types)]
#[derive(Drop)]
pub enum PhpType {
    /// Any value.
    Any,
    /// A value of one of the listed kinds.
    Known(Parts),
}

/// What a known type allows. It is well-formed where only the eleven bits are set, there is an
/// element exactly where the bit of arrays is set, and `shared` is empty where the element is Any.
#[cycle(types)]
#[derive(Drop)]
pub struct Parts {
    /// The kinds of values, by the eleven bits.
    pub bits: u16,
    /// The type of the elements of an array.
    pub element: Option<Box<PhpType>>,
    /// Whether the largest int key ever used in an array may be negative.
    pub neg: bool,
    /// Whether a text key may be in an array.
    pub text_keys: bool,
    /// The labels of cells that elements of an array may share.
    pub shared: Labels,
    /// The classes of an object, by their numbers.
    pub classes: Classes,
}

impl PhpType {
    /// The known type of these bits, without an array. Takes no memory.
    pub fn of_bits(alloc: Global, bits: u16) -> PhpType
        requires eleven_bits { bits < 2048 }
        requires no_array { bit_at bits 9 ≡ 0 }
        ensures value { term result ≡ of_bits bits }
        ensures well_formed { IsWellFormed (term result) }
    {
        plain_of(alloc, bits)
    }

    /// Whether the type is Any. Takes no memory.
    pub fn is_any(&self) -> bool
        ensures { IsTrue result ↔ (term self.now ≡ any) }
    {
        match self {
            PhpType::Any => true,
            PhpType::Known(_) => false,
        }
    }

    /// An equal type. The only error is want of memory.
    pub fn copy(&self, alloc: Global) -> Result<PhpType, AllocError>
        ensures { IfOk result (λ t. term t ≡ term self.now) }
    {
        match self {
            PhpType::Any => Ok(PhpType::Any),
            PhpType::Known(p) => match &p.element {
                None => copy_plain(alloc, p),
                Some(e) => copy_array(alloc, p, p.shared.copy(alloc)?, e.copy(alloc)?),
            },
        }
    }
}

// The known type of these bits alone.
pub(crate) fn plain_of(alloc: Global, bits: u16) -> PhpType
    ensures { term result ≡ of_bits bits }
{
    PhpType::Known(Parts {
        bits,
        element: None,
        neg: false,
        text_keys: false,
        shared: Labels::of(Vec::new(alloc)),
        classes: Classes::of(Vec::new(alloc)),
    })
}

// The known type of the same facts, without an element.
pub(crate) fn copy_plain(alloc: Global, p: &Parts) -> Result<PhpType, AllocError>
    ensures { IfOk result (λ t. term t ≡ plain (facts_of p.now)) }
{
    let shared = p.shared.copy(alloc)?;
    let classes = p.classes.copy(alloc)?;
    Ok(PhpType::Known(Parts {
        bits: p.bits,
        element: None,
        neg: p.neg,
        text_keys: p.text_keys,
        shared,
        classes,
    }))
}

// The known type of the same facts but these labels, with this element.
pub(crate) fn copy_array(
    alloc: Global,
    p: &Parts,
    shared: Labels,
    element: PhpType,
) -> Result<PhpType, AllocError>
    ensures { IfOk result (λ t. term t ≡ array (with_labels (facts_of p.now) shared) (term element)) }
{
    let classes = p.classes.copy(alloc)?;
    Ok(PhpType::Known(Parts {
        bits: p.bits,
        element: Some(Box::new(alloc, element)?),
        neg: p.neg,
        text_keys: p.text_keys,
        shared,
        classes,
    }))
}
