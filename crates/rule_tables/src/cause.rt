// Why a place stays undecided.
ghost use Rattle.std.specs.Prelude.{◌≡◌};
ghost use Rattle.rule_tables.specs.Causes.{cause_number, cause_text};

/// Why a place stays undecided, in the order of the numbers. Where several causes hold, the least is given.
#[derive(Clone, Copy, Debug, PartialEq, Eq)]
pub enum Cause {
    /// The rule is switched off.
    Off,
    /// The types leave it open.
    Types,
    /// An operand may change what another one reads.
    Order,
    /// The name is called somewhere.
    Called,
    /// A name is made as the program runs.
    Dynamic,
    /// The place has another shape.
    Shape,
    /// A namespace is in the way.
    Namespace,
    /// The place is never decided.
    Always,
}

impl Cause {
    /// The cause's number, as reports hold it.
    pub fn number(self) -> u16
        ensures { result ≡ cause_number self }
    {
        match self {
            Cause::Off => 1,
            Cause::Types => 2,
            Cause::Order => 3,
            Cause::Called => 4,
            Cause::Dynamic => 5,
            Cause::Shape => 6,
            Cause::Namespace => 7,
            Cause::Always => 8,
        }
    }

    /// The cause's name, as reports write it.
    pub fn name(self) -> &'static str
        ensures { result.now ≡ cause_text self }
    {
        match self {
            Cause::Off => "off",
            Cause::Types => "types",
            Cause::Order => "order",
            Cause::Called => "called",
            Cause::Dynamic => "dynamic",
            Cause::Shape => "shape",
            Cause::Namespace => "namespace",
            Cause::Always => "always",
        }
    }
}
