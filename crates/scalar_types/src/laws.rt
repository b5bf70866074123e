//! Laws of the order of types and of what is built on it, over all types. Each is a function whose
//! contract is the law; it does nothing.
ghost use Rattle.std.specs.Prelude.{◌≡◌, ℕ, ◌+◌, ◌*◌, ◌<◌, ◌≤◌, List, length};
ghost use Rattle.std.specs.List.Sorted.{IsStrictlyIncreasing};
ghost use Rattle.scalar_types.specs.Terms.{TypeTerm, IsWellFormed};
ghost use Rattle.scalar_types.specs.Order.{Below};
ghost use Rattle.scalar_types.specs.Join.{join_of, meet_of, flattened, element_of, nothing, NestsTo, HasNoLabelsAlone};
ghost use Rattle.scalar_types.specs.Rank.{rank, top_rank, UsesOnly};

/// A type is below itself.
pub fn below_is_reflexive()
    ensures { (a : TypeTerm) → Below a a }
{}

/// What is below a type is below all that are above it.
pub fn below_is_transitive()
    ensures { (a b c : TypeTerm) → Below a b → Below b c → Below a c }
{}

/// Well-formed types that are below one another are equal.
pub fn below_is_antisymmetric()
    ensures { (a b : TypeTerm) → IsWellFormed a → IsWellFormed b → Below a b → Below b a → a ≡ b }
{}

/// The join of two types is above both, and below each type that is.
pub fn join_is_least()
    ensures first { (a b : TypeTerm) → Below a (join_of a b) }
    ensures second { (a b : TypeTerm) → Below b (join_of a b) }
    ensures least { (a b c : TypeTerm) → Below a c → Below b c → Below (join_of a b) c }
{}

/// The meet is above each type that is below both, if labels stand in it only beside an element.
pub fn meet_is_above_what_is_below_both()
    ensures { (c a b : TypeTerm) → HasNoLabelsAlone c → Below c a → Below c b → Below c (meet_of a b) }
{}

/// Flattening loses nothing, keeps the order, and leaves a well-formed type that nests no deeper as
/// it is.
pub fn flattening_is_a_closure()
    ensures above { (depth : ℕ) (a : TypeTerm) → Below a (flattened depth a) }
    ensures nests { (depth : ℕ) (a : TypeTerm) → NestsTo depth (flattened depth a) }
    ensures keeps_order { (depth : ℕ) (a b : TypeTerm) → Below a b → Below (flattened depth a) (flattened depth b) }
    ensures stays { (depth : ℕ) (a : TypeTerm) → IsWellFormed a → NestsTo depth a → flattened depth a ≡ a }
{}

/// The element of a type is below that of each type above it, and the type of no value is below all.
pub fn element_keeps_order()
    ensures element { (a b : TypeTerm) → Below a b → Below (element_of a) (element_of b) }
    ensures least { (a : TypeTerm) → Below nothing a }
{}

/// Joins, meets, flattening and elements of well-formed types are well-formed.
pub fn results_are_well_formed()
    ensures join { (a b : TypeTerm) → IsWellFormed a → IsWellFormed b → IsWellFormed (join_of a b) }
    ensures meet { (a b : TypeTerm) → IsWellFormed a → IsWellFormed b → IsWellFormed (meet_of a b) }
    ensures flatten { (depth : ℕ) (a : TypeTerm) → IsWellFormed a → IsWellFormed (flattened depth a) }
    ensures element { (a : TypeTerm) → IsWellFormed a → IsWellFormed (element_of a) }
{}

/// Joins and meets of types that nest to a depth nest to it, and elements to one less.
pub fn results_nest_no_deeper()
    ensures join { (depth : ℕ) (a b : TypeTerm) → NestsTo depth a → NestsTo depth b
        → NestsTo depth (join_of a b) }
    ensures meet { (depth : ℕ) (a b : TypeTerm) → NestsTo depth a → NestsTo depth b
        → NestsTo depth (meet_of a b) }
    ensures element { (depth : ℕ) (a : TypeTerm) → NestsTo (depth + 1) a → NestsTo depth (element_of a) }
{}

/// Joins, meets, flattening and elements use no label and no class that the types they are made of
/// don't use.
pub fn results_use_no_more()
    ensures join { (labels classes : List ℕ) (a b : TypeTerm) → UsesOnly labels classes a
        → UsesOnly labels classes b → UsesOnly labels classes (join_of a b) }
    ensures meet { (labels classes : List ℕ) (a b : TypeTerm) → UsesOnly labels classes a
        → UsesOnly labels classes b → UsesOnly labels classes (meet_of a b) }
    ensures flatten { (labels classes : List ℕ) (depth : ℕ) (a : TypeTerm) → UsesOnly labels classes a
        → UsesOnly labels classes (flattened depth a) }
    ensures element { (labels classes : List ℕ) (a : TypeTerm) → UsesOnly labels classes a
        → UsesOnly labels classes (element_of a) }
{}

/// Each strict step up the order makes the rank larger, and no rank is above that of Any. So a list
/// of types, each strictly above the one before it, that nest to a depth and use these labels and
/// classes alone, has no more members than that rank and one.
pub fn rank_rises()
    ensures rises { (labels classes : List ℕ) → IsStrictlyIncreasing labels → IsStrictlyIncreasing classes
        → (depth : ℕ) (a b : TypeTerm) → IsWellFormed a → IsWellFormed b
        → UsesOnly labels classes a → UsesOnly labels classes b
        → NestsTo depth a → NestsTo depth b → Below a b → ¬ (Below b a)
        → rank (length labels) (length classes) depth a
        < rank (length labels) (length classes) depth b }
    ensures bounded { (labels classes : List ℕ) → IsStrictlyIncreasing labels → IsStrictlyIncreasing classes
        → (depth : ℕ) (a : TypeTerm) → IsWellFormed a → UsesOnly labels classes a
        → NestsTo depth a
        → rank (length labels) (length classes) depth a
        ≤ top_rank (length labels) (length classes) depth }
    ensures at_depth_three { (labels classes : ℕ) → top_rank labels classes 3 ≡ 56 + 4 * labels + 4 * classes }
{}
