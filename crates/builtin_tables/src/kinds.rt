// What the table of builtins says of arguments, results and versions.

/// Which values an argument may be.
#[derive(Clone, Copy, Debug, PartialEq, Eq)]
pub enum ArgumentKind {
    /// A text, of whatever class.
    Text,
    /// An int.
    Int,
    /// A text or an int.
    TextOrInt,
    /// A bool.
    Bool,
    /// Null, a bool, an int or a text.
    Scalar,
    /// An array, whatever its elements are.
    Array,
    /// An array of which each element is null, a bool, an int or a text.
    ScalarArray,
    /// Any value.
    Any,
}

/// Which values a call comes to.
#[derive(Clone, Copy, Debug, PartialEq, Eq)]
pub enum ResultKind {
    /// An int.
    Int,
    /// An int or false.
    IntOrFalse,
    /// A text, of whatever class.
    Text,
    /// A text of one byte.
    Byte,
    /// A text or false.
    TextOrFalse,
    /// The name of the class around the call.
    ClassName,
    /// A list of texts.
    TextList,
    /// A list of the argument's keys.
    KeyList,
    /// A list of the argument's elements.
    ValueList,
    /// A bool.
    Bool,
    /// False.
    False,
}

/// What 8.3 does otherwise than 7.4.
#[derive(Clone, Copy, Debug, PartialEq, Eq)]
pub enum Change {
    /// Nothing.
    Same,
    /// From a start past the text's end: false in 7.4, the empty text in 8.3.
    PastEnd,
    /// A needle that is an int: the byte of that code in 7.4, its decimal text in 8.3. An empty needle: false in
    /// 7.4, 0 in 8.3.
    Needle,
    /// The two arguments exchanged: the same in 7.4, a TypeError in 8.3.
    Exchanged,
    /// A third argument that is true: a constant without case in 7.4, with case in 8.3.
    ConstantCase,
    /// Removed: 8.3 throws Error.
    Removed,
}
