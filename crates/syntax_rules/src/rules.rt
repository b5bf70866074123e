// Which of the rules on syntax are on.
ghost use Rattle.std.specs.Prelude.{◌≡◌};
ghost use Rattle.syntax_rules.specs.Together.{every_rule};

/// Which of the rules on syntax that edit are on. The rule on reserved words edits nothing, on or off.
#[derive(Clone, Copy)]
pub struct Rules {
    pub nested_ternaries: bool,
    pub dot_operands: bool,
    pub brace_offsets: bool,
    pub real_casts: bool,
    pub unset_casts: bool,
    pub hash_comments: bool,
    pub split_names: bool,
    pub dollar_braces: bool,
}

impl Rules {
    /// Each of them.
    pub fn all() -> Rules
        ensures { result ≡ every_rule }
    {
        Rules {
            nested_ternaries: true,
            dot_operands: true,
            brace_offsets: true,
            real_casts: true,
            unset_casts: true,
            hash_comments: true,
            split_names: true,
            dollar_braces: true,
        }
    }
}
