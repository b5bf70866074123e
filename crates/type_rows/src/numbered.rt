// Rows of pools.
use crate::shown::{put_number, put_word};
use crate::words::scalar;
use scalar_types::{Pool, TypeId};
use std::alloc::{AllocError, Global};

// A new pool.
fn fresh(alloc: Global) -> Result<Pool, AllocError> {
    Pool::new(alloc)
}

// The number of a word's type, which is stored if it isn't there yet.
fn stored(alloc: Global, pool: &mut Pool, word: &str) -> Result<TypeId, AllocError> {
    pool.intern(alloc, &scalar(alloc, word))
}

// How many numbers there are.
fn count(pool: &Pool) -> u64 {
    pool.count()
}

// Adds the number and the head of a word's type.
fn put_stored(
    alloc: Global,
    pool: &mut Pool,
    word: &str,
    out: &mut String,
) -> Result<(), AllocError> {
    let id = stored(alloc, pool, word)?;
    put_number(out, id.0)?;
    put_head(out, pool, id)
}

// Adds the head of a number's packed form, if the pool has the number.
fn put_head(out: &mut String, pool: &Pool, id: TypeId) -> Result<(), AllocError> {
    match pool.packed(id) {
        Some(packed) => put_number(out, u64::from(packed.head)),
        None => put_word(out, "none"),
    }
}

// Whether a number's type is Any, if the pool has the number.
fn is_any(pool: &Pool, id: TypeId) -> bool {
    pool.get(id).is_some_and(|a| a.is_any())
}

/// The number and the head of each word's type but the first word, how many numbers there are then, and whether the
/// number 0 is that of Any.
pub fn interned(alloc: Global, words: &str, out: &mut String) -> Result<(), AllocError> {
    let mut pool = fresh(alloc)?;
    for word in words.split(' ').skip(1) {
        put_stored(alloc, &mut pool, word, out)?;
    }
    put_word(out, "of")?;
    put_number(out, count(&pool))?;
    put_head(out, &pool, TypeId(count(&pool)))?;
    put_word(
        out,
        if is_any(&pool, TypeId(0)) {
            "any"
        } else {
            "another"
        },
    )
}

// Whether a number's type is below another's, if the pool has both numbers.
fn put_below(out: &mut String, pool: &Pool, a: TypeId, b: TypeId) -> Result<(), AllocError> {
    if a.0 < pool.count() && b.0 < pool.count() {
        return put_word(out, if pool.below_ids(a, b) { "yes" } else { "no" });
    }
    put_word(out, "none")
}

// The number of the join of two numbers' types, and 0 where the pool lacks one.
fn join_of(alloc: Global, pool: &mut Pool, a: TypeId, b: TypeId) -> Result<TypeId, AllocError> {
    if a.0 < pool.count() && b.0 < pool.count() {
        return pool.join_ids(alloc, a, b);
    }
    Ok(TypeId(0))
}

/// The number and the head of the join of two words' types, whether the first is below it and it below the first,
/// and the number of its join with the first.
pub fn joined(
    alloc: Global,
    first: &str,
    second: &str,
    out: &mut String,
) -> Result<(), AllocError> {
    let mut pool = fresh(alloc)?;
    let a = stored(alloc, &mut pool, first)?;
    let b = stored(alloc, &mut pool, second)?;
    let either = join_of(alloc, &mut pool, a, b)?;
    put_number(out, either.0)?;
    put_head(out, &pool, either)?;
    put_below(out, &pool, a, either)?;
    put_below(out, &pool, either, a)?;
    let again = join_of(alloc, &mut pool, either, a)?;
    put_number(out, again.0)
}
