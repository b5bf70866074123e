// What a form is made of.
use php_terminals::terminal::Terminal;
use php_tree::NodeKind;

/// A place for a node: what may stand there.
#[derive(Clone, Copy, Debug, PartialEq, Eq)]
pub enum Sort {
    /// A statement.
    Statement,
    /// A block: the body of a function, of `try` and of what belongs to it.
    Block,
    /// A case of a switch.
    Case,
    /// A member of a class, an interface or a trait.
    Member,
    /// A parameter.
    Param,
    /// A type.
    TypeName,
    /// The arguments of a call.
    Args,
    /// An item of an array.
    Item,
    /// An item of a list form.
    ListItem,
    /// An expression whose operator is of this level or a tighter one, or that may stand behind any operator.
    Operand(u8),
    /// The first expression of an item of a list form: a key before `=>`, or else a target.
    Entry,
    /// What a foreach or a list form writes: a variable expression or a list form.
    Target,
    /// What `++` and `--` write: a variable expression.
    Place,
    /// A variable, `$` before a variable, or `${` with an expression.
    SimpleVariable,
    /// A variable alone.
    PlainVariable,
    /// An expression that names a class without a call, after `new` and `instanceof`.
    ClassRef,
    /// A variable in a quoted text, with a simple offset or property.
    Interpolated,
    /// A variable expression behind `{` in a quoted text: a variable with its offsets, members and calls.
    Embedded,
}

/// Parts of a node that stand together. Each is chosen by the tokens that come.
#[derive(Clone, Copy, Debug, PartialEq, Eq)]
pub enum Group {
    /// A name.
    Name,
    /// The name of a function that is called.
    CalledName,
    /// The name of a namespace.
    NamespaceName,
    /// What a name may begin with, in 7.4.
    NameLead,
    /// The further parts of a name, in 7.4.
    NameMore,
    /// The other names of a list.
    MoreNames,
    /// A name in a use of functions or constants.
    ImportedName,
    /// A name in a use that it gives to a class.
    ImportedClass,
    /// A name in braces in a use of functions or constants.
    GroupedName,
    /// A name in braces in a use that it gives to a class.
    GroupedClass,
    /// The backslash that a name in a use may begin with, in 7.4.
    RootLead,
    /// Statements, up to a word or a brace that ends them.
    Statements,
    /// The `elseif` parts of an `if`.
    ElseIfs,
    /// The `else` of an `if`: it belongs to the nearest one.
    ElsePart,
    /// The `elseif` parts of an `if` with colons.
    AltElseIfs,
    /// The `else` of an `if` with colons.
    AltElse,
    /// The body of a `while`.
    WhileBody,
    /// The body of a `for`.
    ForBody,
    /// The body of a `foreach`.
    ForeachBody,
    /// The body of a `declare`.
    DeclareBody,
    /// The cases of a `switch`.
    SwitchBody,
    /// The semicolon before the first case.
    FirstSemi,
    /// The cases.
    Cases,
    /// The mark behind a case.
    CaseMark,
    /// The other expressions of a list.
    MoreExprs,
    /// The value of a `return`.
    ReturnValue,
    /// The expressions of a part of a `for`.
    Exprs,
    /// What a `foreach` writes.
    ForeachTarget,
    /// The value behind the key of a `foreach`.
    ForeachValue,
    /// The number of loops of a `break` or `continue`.
    LoopCount,
    /// The other variables of a `global`.
    MoreGlobals,
    /// The `catch` parts and the `finally` of a `try`: there is at least one.
    Handlers,
    /// The other `catch` parts.
    Catches,
    /// The other names of a `catch`.
    CaughtNames,
    /// The `finally`.
    FinallyPart,
    /// The other directives of a `declare`.
    MoreDirectives,
    /// The other expressions of an `unset` or `isset`, which may end with a comma.
    MoreUnset,
    /// The mark of a reference.
    ByRef,
    /// A first value.
    FirstValue,
    /// The other variables of a list, each with its first value.
    MoreVariables,
    /// The parameters.
    Params,
    /// The other parameters.
    MoreParams,
    /// The type of a parameter.
    ParamType,
    /// The mark of a variadic parameter, and of a spread argument.
    Variadic,
    /// The type of what is returned.
    ReturnType,
    /// The mark of a type with null.
    Nullable,
    /// A type without its mark.
    TypeWord,
    /// The modifiers of a class.
    ClassModifiers,
    /// The parent of a class.
    Extends,
    /// The parents of an interface.
    Parents,
    /// The interfaces of a class.
    Implements,
    /// The members of a class, an interface or a trait.
    Members,
    /// The modifiers of a member.
    Modifiers,
    /// The type of a property.
    PropertyType,
    /// The body of a method, or none.
    MethodBody,
    /// The other constants of a class constant.
    MoreClassConsts,
    /// What a use of traits ends with.
    TraitRules,
    /// The other constants of a `const`.
    MoreConsts,
    /// What stands behind `namespace`.
    NamespaceBody,
    /// What stands behind the name of a namespace.
    NamespaceRest,
    /// What a use imports: functions, constants, or classes and namespaces.
    UseBody,
    /// Behind the first name of a use of functions or constants.
    UseRest,
    /// The other names of a use of functions or constants.
    MoreUses,
    /// The alias of a function or a constant.
    Alias,
    /// A name in the braces of a use of functions or constants.
    Grouped,
    /// The other names in the braces of a use of functions or constants, which may end with a comma.
    MoreGrouped,
    /// Behind the first name of a use of classes.
    ClassUseRest,
    /// The other names of a use of classes.
    MoreClassUses,
    /// The alias of a class.
    ClassAlias,
    /// A name in the braces of a use of classes.
    ClassGrouped,
    /// The other names in the braces of a use of classes, which may end with a comma.
    MoreClassGrouped,
    /// A name in a use of classes: a name with an alias, or before braces, is no class of that name.
    UsedClass,
    /// A name in the braces of a use of classes: a name with an alias is no class of that name.
    UsedGrouped,
    /// The arguments of a call.
    ArgList,
    /// The other arguments, which may end with a comma.
    MoreArgs,
    /// The items of an array.
    ArrayItems,
    /// The other items of an array, which may end with a comma.
    MoreItems,
    /// The value behind the key of an item.
    ItemValue,
    /// An item of a list form, which may be missing.
    ListHead,
    /// The other items of a list form.
    ListMore,
    /// The target behind the key of an item of a list form.
    EntryValue,
    /// The parts of a quoted text.
    QuotedParts,
    /// The offset behind a name after `${`.
    NamedKey,
    /// A simple offset.
    SimpleKey,
    /// The value of an `exit`.
    ExitValue,
    /// The value of an `exit` in its parentheses.
    ExitCode,
    /// The value behind the key of a `yield`.
    YieldTo,
    /// The variables that a closure takes along.
    ClosureUse,
    /// The other variables that a closure takes along.
    MoreUsed,
    /// The arguments of a `new`.
    CtorArgs,
    /// The key of an offset.
    OffsetKey,
    /// A member: a variable, an expression in braces, or a word.
    Member,
    /// A static property.
    StaticMember,
    /// The value of a `yield`, or none.
    YieldValue,
    /// What `new` makes.
    Created,
    /// The class behind `instanceof`.
    InstanceRef,
    /// The attribute before a class, in 8.3.
    Attribute,
}

/// A step of a form.
#[derive(Clone, Copy, Debug, PartialEq, Eq)]
pub enum Item {
    /// One token.
    Word(Terminal),
    /// One node.
    Node(Sort),
    /// The parts of a group.
    Part(Group),
    /// The parts of a group again and again, until the tokens that come choose none.
    Repeats(Group),
    /// Tokens up to a brace that closes no brace among them.
    Span,
}

/// The kind of a node, and its items in order.
pub type Form = (NodeKind, &'static [Item]);

/// Any expression: the loosest level.
pub const ANY: u8 = 24;

/// No items.
pub static NOTHING: [Item; 0] = [];
