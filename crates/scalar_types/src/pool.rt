// Numbered types.
ghost use Rattle.std.specs.Prelude.{◌≡◌, ◌↔◌, ℕ, ◌*◌, ◌<◌, IsTrue, IsSome, IfSome, IfOk, Some, [], ◌∷◌, length, slice_get, option_copied};
ghost use Rattle.std.specs.Option.{option_map};
ghost use Rattle.scalar_types.specs.Heads.{head_of as facts_head};
ghost use Rattle.scalar_types.specs.Terms.{facts_of as parts_facts, flag_count};

use crate::interning::{position_of, store};
use crate::joins::join;
use crate::order::below;
use crate::php_type::{Parts, PhpType};
use indexmap::IndexSet;
use std::alloc::{AllocError, Global};
use std::hash::Hash;
use std::marker::Model;

/// The number of a type in a pool.
#[derive(Clone, Copy, Debug, PartialEq, Eq, Hash)]
pub struct TypeId(pub u64);

/// A type in packed form. `head` has the eleven bits at places 0 to 10, `neg` at 11, `text_keys` at
/// 12 and whether the type is Any at 13. `element` is the element's number, and 0 where there is
/// none. `shared` and `classes` are the positions of interned lists, 0 being the empty list's.
#[derive(Clone, Copy, Debug, PartialEq, Eq, Hash)]
pub struct Packed {
    pub head: u16,
    pub element: TypeId,
    pub shared: u64,
    pub classes: u64,
}

/// Types, each stored once under a number. Contracts see its content: the type and the packed form of
/// each number, and the interned lists.
#[derive(Drop)]
pub struct Pool {
    types: Vec<PhpType>,
    packed: IndexSet<Packed>,
    lists: IndexSet<Vec<u32>>,
}

impl Model for Pool {
    ghost use Rattle.scalar_types.specs.Pool.{Content, content_code};

    ghost Value = { Content };

    ghost coded = { content_code };

    ghost use Rattle.scalar_types.specs.PoolView.{content_of, IsPoolInside};

    ghost view = { content_of };

    ghost invariant = { IsPoolInside };
}

impl Pool {
    ghost use Rattle.scalar_types.specs.Pool.{Grows, HasNoRepeat, IsPool, HasPackedForm, IsNumberOfJoin, IsKnownWith};
    ghost use Rattle.scalar_types.specs.Terms.{term, facts_of, TypeTerm, IsWellFormed, any};
    ghost use Rattle.scalar_types.specs.Order.{Below};

    /// A pool that holds Any at number 0. The only error is want of memory.
    pub fn new(alloc: Global) -> Result<Pool, AllocError>
        ensures { IfOk result (λ pool. pool.types ≡ any ∷ []) }
    {
        let mut types = Vec::new(alloc);
        types.push(PhpType::Any)?;
        let mut packed = IndexSet::new(alloc);
        packed.insert_full(ANY)?;
        let mut lists = IndexSet::new(alloc);
        lists.insert_full(Vec::new(alloc))?;
        Ok(Pool {
            types,
            packed,
            lists,
        })
    }

    /// How many numbers there are: each below it has a type. No type has two numbers. Takes no memory.
    pub fn count(&self) -> u64
        ensures count { result ≡ length self.now.types }
        ensures types_differ { HasNoRepeat self.now.types }
        ensures content { IsPool self.now }
    {
        self.types.len() as u64
    }

    /// The number of a type, which is stored if it isn't there yet. The only error is want of memory;
    /// older numbers keep their types then too.
    pub fn intern(&mut self, alloc: Global, a: &PhpType) -> Result<TypeId, AllocError>
        requires { IsWellFormed (term a.now) }
        ensures number { IfOk result (λ id. slice_get self.new.types id.0 ≡ Some (term a.now)) }
        ensures grows { Grows self.old self.new }
        ensures stands { (k : ℕ) → slice_get self.old.types k ≡ Some (term a.now) → self.new.types ≡ self.old.types }
        ensures types_differ { HasNoRepeat self.new.types }
    {
        let _ = &self.types;
        match a {
            PhpType::Any => Ok(TypeId(0)),
            PhpType::Known(p) => match &p.element {
                None => self.intern_parts(alloc, a, p, TypeId(0)),
                Some(e) => {
                    let element = self.intern(alloc, e)?;
                    self.intern_parts(alloc, a, p, element)
                }
            },
        }
    }

    /// The type of a number, and None exactly where the number is `count` or more. Takes no memory.
    pub fn get(&self, a: TypeId) -> Option<&PhpType>
        ensures value { option_map (λ t. term t.now) result ≡ slice_get self.now.types a.0 }
        ensures there { IsSome result ↔ (a.0 < length self.now.types) }
        ensures well_formed { IfSome result (λ t. IsWellFormed (term t.now)) }
    {
        self.types.get(a.0 as usize)
    }

    /// The packed form of the type of a number, and None exactly where the number is `count` or more.
    /// Takes no memory.
    pub fn packed(&self, a: TypeId) -> Option<&Packed>
        ensures value { option_copied result ≡ slice_get self.now.packed a.0 }
        ensures there { IsSome result ↔ (a.0 < length self.now.types) }
        ensures packs { IfSome result (λ p. HasPackedForm self.now a.0 p.now) }
    {
        self.packed.get_index(a.0 as usize)
    }

    /// The number of the join of two numbers' types, which is stored if it isn't there yet. The only
    /// error is want of memory; older numbers keep their types then too.
    pub fn join_ids(&mut self, alloc: Global, a: TypeId, b: TypeId) -> Result<TypeId, AllocError>
        requires first { a.0 < length self.old.types }
        requires second { b.0 < length self.old.types }
        ensures number { IfOk result (λ id. IsNumberOfJoin self.old self.new a.0 b.0 id.0) }
        ensures grows { Grows self.old self.new }
        ensures types_differ { HasNoRepeat self.new.types }
    {
        let _ = &self.types;
        let joined = join(alloc, self.type_at(a), self.type_at(b))?;
        self.intern(alloc, &joined)
    }

    /// Whether the first number's type is below the second's. Takes no memory.
    pub fn below_ids(&self, a: TypeId, b: TypeId) -> bool
        requires first { a.0 < length self.now.types }
        requires second { b.0 < length self.now.types }
        ensures { (s t : TypeTerm) → slice_get self.now.types a.0 ≡ Some s
            → slice_get self.now.types b.0 ≡ Some t → (IsTrue result ↔ Below s t) }
    {
        below(self.type_at(a), self.type_at(b))
    }

    // The type of a number.
    fn type_at(&self, a: TypeId) -> &PhpType
        requires { a.0 < length self.now.types }
        ensures value { slice_get self.now.types a.0 ≡ Some (term result.now) }
        ensures well_formed { IsWellFormed (term result.now) }
    {
        &self.types[a.0 as usize]
    }

    // The number of a known type, whose element has this number.
    fn intern_parts(
        &mut self,
        alloc: Global,
        a: &PhpType,
        p: &Parts,
        element: TypeId,
    ) -> Result<TypeId, AllocError>
        requires well_formed { IsWellFormed (term a.now) }
        requires element { IsKnownWith self.old.types (facts_of p.now) element.0 (term a.now) }
        ensures number { IfOk result (λ id. slice_get self.new.types id.0 ≡ Some (term a.now)) }
        ensures grows { Grows self.old self.new }
        ensures stands { (k : ℕ) → slice_get self.old.types k ≡ Some (term a.now) → self.new.types ≡ self.old.types }
        ensures types_differ { HasNoRepeat self.new.types }
    {
        let shared = position_of(&mut self.lists, alloc, p.shared.as_slice())?;
        let classes = position_of(&mut self.lists, alloc, p.classes.as_slice())?;
        let packed = Packed {
            head: head_of(p),
            element,
            shared,
            classes,
        };
        store(&mut self.types, &mut self.packed, alloc, a, packed)
    }
}

// The packed form of Any.
const ANY: Packed = Packed {
    head: 8192,
    element: TypeId(0),
    shared: 0,
    classes: 0,
};

// The head of a known type's packed form.
fn head_of(p: &Parts) -> u16
    requires { p.now.bits < 2048 }
    ensures { result ≡ facts_head (parts_facts p.now) }
{
    p.bits + place(p.neg, 2048) + place(p.text_keys, 4096)
}

// The value of a place, where its flag is set.
fn place(flag: bool, value: u16) -> u16
    ensures { result ≡ flag_count flag * value }
{
    if flag { value } else { 0 }
}
