// What the tokens of a file that come are.
ghost use Rattle.std.specs.Prelude.{◌≡◌, ◌+◌, ◌≤◌, length, drop};
ghost use Rattle.php_terminals.specs.Ahead.{behind_member, behind_name, behind_rest, behind_variable, dollars, is_called, name_len, past_group, spanned, first_of};
ghost use Rattle.php_terminals.specs.Tokens.{tokens_in};

use crate::marks::{closes, is_dollar, is_name_part, is_open_brace, is_open_paren, opens};
use crate::terminal::Terminal;
use crate::tokens::Tokens;

impl<'a> Tokens<'a> {
    /// The class of the token behind the brackets that begin here.
    pub fn past_group(self) -> Terminal
        ensures { result ≡ first_of (past_group 0 (tokens_in self.entry)) }
    {
        let mut open = 0usize;
        for (i, mark) in self.marks.iter().enumerate() {
            if opens(mark.class) {
                open += 1;
                continue;
            }
            if !closes(mark.class) {
                continue;
            }
            if open <= 1 {
                return self.class(i + 1);
            }
            open -= 1;
        }
        Terminal::End
    }

    /// How many tokens there are before the bracket that closes none among them.
    pub fn spanned(self) -> usize
        ensures { result ≡ spanned 0 (tokens_in self.entry) }
    {
        let mut open = 0usize;
        for (i, mark) in self.marks.iter().enumerate() {
            if opens(mark.class) {
                open += 1;
                continue;
            }
            if !closes(mark.class) {
                continue;
            }
            if open == 0 {
                return i;
            }
            open -= 1;
        }
        self.marks.len()
    }

    // How many tokens the name that begins here has.
    fn name_len(self) -> usize
        ensures { result ≡ name_len (tokens_in self.entry) }
    {
        for (i, mark) in self.marks.iter().enumerate() {
            if !is_name_part(mark.class) {
                return i;
            }
        }
        self.marks.len()
    }

    /// The tokens behind the name that begins here.
    pub fn behind_name(self) -> Tokens<'a>
        ensures tokens { tokens_in result ≡ behind_name (tokens_in self.entry) }
        ensures bytes { result.bytes.now ≡ self.entry.bytes.now }
    {
        self.behind(self.name_len())
    }

    // How many `$` there are here.
    fn dollars(self) -> usize
        ensures { result ≡ dollars (tokens_in self.entry) }
    {
        for (i, mark) in self.marks.iter().enumerate() {
            if !is_dollar(mark.class) {
                return i;
            }
        }
        self.marks.len()
    }

    // The class of the token behind a variable without its `$`.
    fn behind_rest(self) -> Terminal
        ensures { result ≡ behind_rest (tokens_in self.entry) }
    {
        if is_open_brace(self.first()) {
            self.past_group()
        } else {
            self.second()
        }
    }

    // The class of the token behind a variable that begins with `$`.
    fn behind_variable(self) -> Terminal
        ensures { result ≡ behind_variable (tokens_in self.entry) }
    {
        self.behind(self.dollars()).behind_rest()
    }

    // The class of the token behind the member that begins here.
    fn behind_member(self) -> Terminal
        ensures { result ≡ behind_member (tokens_in self.entry) }
    {
        if is_dollar(self.first()) {
            self.behind_variable()
        } else {
            self.behind_rest()
        }
    }

    /// Whether the member that begins here is called.
    pub fn is_called(self) -> bool
        ensures { result ≡ is_called (tokens_in self.entry) }
    {
        is_open_paren(self.behind_member())
    }
}
