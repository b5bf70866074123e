// The rules, with their names, numbers and weights.
ghost use Rattle.std.specs.Prelude.{◌≡◌};
ghost use Rattle.rule_tables.specs.Rules.{name_of, number_of, weight_of, undecided_weight_of, rule_named};

use io_ports::Weight;

/// The rules, in the order of their numbers.
#[derive(Clone, Copy, Debug, PartialEq, Eq)]
pub enum RuleId {
    /// A ternary at the left of another one.
    NestedTernary,
    /// A concatenation whose operator binds looser in 8.3.
    DotPrecedence,
    /// An offset in braces.
    BraceOffset,
    /// The cast `(real)`.
    RealCast,
    /// The cast `(unset)`.
    UnsetCast,
    /// A comment that begins an attribute in 8.3.
    HashComment,
    /// A name with trivia inside, or directly behind a keyword.
    SplitName,
    /// `${` in a quoted text.
    DollarBrace,
    /// A word that 8.3 reserves.
    ReservedName,
    /// A loose comparison of a number with a text.
    LooseCompare,
    /// Arithmetic on a text that is no number.
    WordArithmetic,
    /// The key that follows a negative one.
    NextKey,
    /// A constructor that is named like its class.
    OldConstructor,
    /// Static variables of a method that a child class inherits.
    InheritedStatic,
    /// A property that no class declares.
    DynamicProperty,
    /// `get_class()` without arguments.
    GetClass,
    /// A static call of a method that isn't static.
    StaticCall,
    /// An undefined constant that stands for its name.
    BareConstant,
    /// A call that 8.3 doesn't have, or a third argument of `define`.
    RemovedCall,
    /// The arguments of `implode` in their old order.
    ImplodeOrder,
    /// `substr` from behind the end of a text.
    SubstrFalse,
    /// The needle of `strpos`.
    StrposNeedle,
}

/// A row of the table of rules.
#[derive(Clone, Copy)]
struct Row {
    name: &'static str,
    number: u16,
    weight: Weight,
    undecided: Weight,
}

impl RuleId {
    /// The rules, in the order of their numbers.
    pub const ALL: [RuleId; 22] = [
        RuleId::NestedTernary,
        RuleId::DotPrecedence,
        RuleId::BraceOffset,
        RuleId::RealCast,
        RuleId::UnsetCast,
        RuleId::HashComment,
        RuleId::SplitName,
        RuleId::DollarBrace,
        RuleId::ReservedName,
        RuleId::LooseCompare,
        RuleId::WordArithmetic,
        RuleId::NextKey,
        RuleId::OldConstructor,
        RuleId::InheritedStatic,
        RuleId::DynamicProperty,
        RuleId::GetClass,
        RuleId::StaticCall,
        RuleId::BareConstant,
        RuleId::RemovedCall,
        RuleId::ImplodeOrder,
        RuleId::SubstrFalse,
        RuleId::StrposNeedle,
    ];

    /// The rule's name, as settings and reports write it.
    pub fn name(self) -> &'static str
        ensures { result.now ≡ name_of self }
    {
        table_row(self).name
    }

    /// The rule's number, which is the code of its reports.
    pub fn number(self) -> u16
        ensures { result ≡ number_of self }
    {
        table_row(self).number
    }

    /// The weight of the rule's reports of places that it would edit.
    pub fn weight(self) -> Weight
        ensures { result ≡ weight_of self }
    {
        table_row(self).weight
    }

    /// The weight of the rule's reports of undecided places.
    pub fn undecided_weight(self) -> Weight
        ensures { result ≡ undecided_weight_of self }
    {
        table_row(self).undecided
    }

    /// The rule of a name, or `None` exactly where no rule has it.
    pub fn named(name: &str) -> Option<RuleId>
        ensures { result ≡ rule_named name.now }
    {
        RuleId::ALL.iter().copied().find(|rule| rule.name() == name)
    }
}

fn table_row(rule: RuleId) -> Row
    ensures name { result.name.now ≡ name_of rule }
    ensures number { result.number ≡ number_of rule }
    ensures weight { result.weight ≡ weight_of rule }
    ensures undecided { result.undecided ≡ undecided_weight_of rule }
{
    use Weight::{Compile, Note, Stop};

    let (name, number, weight, undecided) = match rule {
        RuleId::NestedTernary => ("nested-ternary", 1, Compile, Compile),
        RuleId::DotPrecedence => ("dot-precedence", 2, Stop, Stop),
        RuleId::BraceOffset => ("brace-offset", 3, Compile, Compile),
        RuleId::RealCast => ("real-cast", 4, Compile, Compile),
        RuleId::UnsetCast => ("unset-cast", 5, Compile, Compile),
        RuleId::HashComment => ("hash-comment", 6, Compile, Compile),
        RuleId::SplitName => ("split-name", 7, Compile, Compile),
        RuleId::DollarBrace => ("dollar-brace", 8, Note, Note),
        RuleId::ReservedName => ("reserved-name", 9, Compile, Compile),
        RuleId::LooseCompare => ("loose-compare", 10, Stop, Stop),
        RuleId::WordArithmetic => ("word-arithmetic", 11, Stop, Stop),
        RuleId::NextKey => ("next-key", 12, Stop, Stop),
        RuleId::OldConstructor => ("old-constructor", 13, Compile, Compile),
        RuleId::InheritedStatic => ("inherited-static", 14, Stop, Stop),
        RuleId::DynamicProperty => ("dynamic-property", 15, Note, Note),
        RuleId::GetClass => ("get-class", 16, Note, Stop),
        RuleId::StaticCall => ("static-call", 17, Stop, Stop),
        RuleId::BareConstant => ("bare-constant", 18, Stop, Stop),
        RuleId::RemovedCall => ("removed-call", 19, Stop, Stop),
        RuleId::ImplodeOrder => ("implode-order", 20, Stop, Stop),
        RuleId::SubstrFalse => ("substr-false", 21, Stop, Stop),
        RuleId::StrposNeedle => ("strpos-needle", 22, Stop, Stop),
    };
    Row {
        name,
        number,
        weight,
        undecided,
    }
}
