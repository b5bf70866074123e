// Types of a row's words.
ghost use Rattle.scalar_types.specs.Terms.{term, IsWellFormed};

use scalar_types::{ARRAY, Classes, INT, Labels, NULL, OBJECT, Parts, PhpType, WORD};
use std::alloc::{AllocError, Global};

/// A type without an array, and Any for any other word.
pub fn scalar(alloc: Global, word: &str) -> PhpType
    ensures { IsWellFormed (term result) }
{
    match word {
        "null" => PhpType::of_bits(alloc, NULL),
        "int" => PhpType::of_bits(alloc, INT),
        "word" => PhpType::of_bits(alloc, WORD),
        "int|word" => PhpType::of_bits(alloc, INT | WORD),
        "object" => PhpType::of_bits(alloc, OBJECT),
        _ => PhpType::Any,
    }
}

// An array of this element, with these labels beside it.
fn array(alloc: Global, element: PhpType, shared: Labels) -> Result<PhpType, AllocError> {
    Ok(PhpType::Known(Parts {
        bits: ARRAY,
        element: Some(Box::new(alloc, element)?),
        neg: true,
        text_keys: false,
        shared,
        classes: Classes::of(Vec::new(alloc)),
    }))
}

// Arrays so deep, of ints.
fn nested(alloc: Global, depth: u32) -> Result<PhpType, AllocError> {
    let mut a = PhpType::of_bits(alloc, INT);
    for _ in 0..depth {
        a = array(alloc, a, Labels::of(Vec::new(alloc)))?;
    }
    Ok(a)
}

// An object of the classes 0 and 11.
fn classed(alloc: Global) -> Result<PhpType, AllocError> {
    let classes = Classes::of(vec![in alloc; 0, 11]?);
    Ok(PhpType::Known(Parts {
        bits: OBJECT,
        element: None,
        neg: false,
        text_keys: false,
        shared: Labels::of(Vec::new(alloc)),
        classes,
    }))
}

/// The type of a word: `array:N` is N arrays in one another, of ints; `ints` has the labels 4 and 7, `words` the
/// label 5, `anys` none; `classed` has the classes 0 and 11.
pub fn type_of(alloc: Global, word: &str) -> Result<PhpType, AllocError> {
    if let Some(depth) = word.strip_prefix("array:") {
        return nested(alloc, depth.parse::<u32>().unwrap_or(0));
    }
    match word {
        "ints" => {
            let labels = Labels::of(vec![in alloc; 4, 7]?);
            array(alloc, scalar(alloc, "int"), labels)
        }
        "words" => {
            let labels = Labels::of(vec![in alloc; 5]?);
            array(alloc, scalar(alloc, "word"), labels)
        }
        "anys" => array(alloc, PhpType::Any, Labels::of(Vec::new(alloc))),
        "classed" => classed(alloc),
        _ => Ok(scalar(alloc, word)),
    }
}
