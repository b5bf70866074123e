// The places of rules that are off: where each of them would edit.
ghost use Rattle.std.specs.Prelude.{◌≡◌, ◌&&◌, if◌then◌else◌, Bool, false, zero, map, Option, IfOk, OnOk};
ghost use Rattle.php_tree.specs.Tree.{leaf as leaf_then};
ghost use Rattle.php_tree.specs.Places.{behind as behind_token, end_of};
ghost use Rattle.php_rows.specs.Reading.{forest_in};
ghost use Rattle.syntax_rules.specs.Around as at_node;
ghost use Rattle.syntax_rules.specs.InContext.{around_of};
ghost use Rattle.syntax_rules.specs.Together.{token_by};
ghost use Rattle.syntax_upgrade.specs.Found.{found_of};
ghost use Rattle.syntax_upgrade.specs.Heads.{shown};
ghost use Rattle.syntax_upgrade.specs.NamesWalked.{Head};
ghost use Rattle.syntax_upgrade.specs.OffPlaces as spec;
ghost use Rattle.syntax_upgrade.specs.Words.{seen};

use crate::brace_offset::is_brace_offset;
use crate::casts::is_real_cast;
use crate::dollar_brace::is_dollar_brace;
use crate::dot_precedence::is_regrouped;
use crate::found::{Found, add_off};
use crate::hash_comment::add_comments;
use crate::nested_ternary::is_nested;
use crate::next::{Part, next};
use crate::past::{past_bytes, past_token};
use crate::rounds::Around;
use crate::split_name::{Ahead, alone, head_of_parts, is_nothing};
use crate::start_of::start_of;
use crate::unset_cast::is_edited;
use crate::word::Word;
use php_rows::Parts;
use php_tree::NodeKind;
use rule_tables::RuleId;
use std::alloc::{AllocError, Global};
use std::marker::Model;
use syntax_rules::Rules;

/// What is found, and whether a keyword stands directly before what comes next, where names are looked at.
#[derive(Drop)]
pub(crate) struct OffPlaces {
    behind_keyword: bool,
    found: Vec<Found>,
}

impl Model for OffPlaces {
    ghost use Rattle.std.specs.Prelude.{map};
    ghost use Rattle.syntax_upgrade.specs.Found.{found_of};
    ghost use Rattle.syntax_upgrade.specs.OffPlaces.{Off};

    ghost Value = { Off };

    ghost view = { λ o. record { behind = o.behind_keyword; found = map found_of o.found.items } };
}

// Whether trivia stand before one of so many tokens that these parts begin with.
fn has_trivia(more: usize, parts: Parts) -> bool
    ensures { result ≡ spec.has_trivia more (forest_in parts.entry) }
{
    let mut left = parts;
    let mut count = more;
    while count > 0 {
        count -= 1;
        match next(&mut left) {
            None => return false,
            Some(Part::Node(_, _)) => return false,
            Some(Part::Leaf(token)) => {
                if !is_nothing(token.lead) {
                    return true;
                }
            }
        }
    }
    false
}

// The place behind so many tokens that these parts begin with, which begin at a place.
fn behind_more(more: usize, at: u32, parts: Parts) -> Result<u32, AllocError>
    ensures { IfOk result (λ place. place ≡ spec.behind_more more at (forest_in parts.entry)) }
{
    let mut left = parts;
    let mut count = more;
    let mut place = at;
    while count > 0 {
        count -= 1;
        match next(&mut left) {
            None => return Ok(place),
            Some(Part::Node(_, _)) => return Ok(place),
            Some(Part::Leaf(token)) => place = past_token(place, token)?,
        }
    }
    Ok(place)
}

// Whether neither names nor comments are looked at.
fn keeps_names(rules: Rules) -> bool
    ensures { result ≡ (rules.split_names && rules.hash_comments) }
{
    rules.split_names && rules.hash_comments
}

impl OffPlaces {
    /// At the front of a file.
    pub(crate) fn new(alloc: Global) -> OffPlaces
        ensures { result ≡ spec.no_off }
    {
        OffPlaces {
            behind_keyword: false,
            found: Vec::new(alloc),
        }
    }

    /// Behind the trivia of a token that begin at a place.
    pub(crate) fn trivia(&mut self, rules: Rules, at: u32, token: Word) -> Result<(), AllocError>
        ensures { OnOk result (self.new ≡ spec.trivia_off rules at (seen token.entry) self.old) }
    {
        if rules.hash_comments {
            return Ok(());
        }
        add_comments(token.lead, at, &mut self.found)
    }

    // Behind a token, or the first one of a name, with these parts behind it.
    fn head(&mut self, at: u32, token: Word, ahead: Ahead, behind: Parts) -> Result<(), AllocError>
        ensures { (h : Head) → ahead ≡ shown h →
            OnOk result (self.new ≡ spec.head_off at (seen token.entry) h (forest_in behind.entry) self.old) }
    {
        let is_split = has_trivia(ahead.more, behind)
            || ahead.wants_space(true, self.behind_keyword);
        if is_split {
            let start = past_bytes(at, token.lead)?;
            let end = behind_more(ahead.more, past_token(at, token)?, behind)?;
            add_off(start, end, RuleId::SplitName, &mut self.found)?;
        }
        self.behind_keyword = ahead.keyword_behind(self.behind_keyword);
        Ok(())
    }

    // The same, if names are looked at.
    fn name(
        &mut self,
        rules: Rules,
        at: u32,
        token: Word,
        ahead: Ahead,
        behind: Parts,
    ) -> Result<(), AllocError>
        ensures { (h : Head) → ahead ≡ shown h →
            OnOk result (self.new ≡ spec.name_off rules at (seen token.entry) h (forest_in behind.entry) self.old) }
    {
        if rules.split_names {
            self.behind_keyword = false;
            return Ok(());
        }
        self.head(at, token, ahead, behind)
    }

    // Behind `${`, or another token.
    fn dollar(&mut self, rules: Rules, at: u32, token: Word) -> Result<(), AllocError>
        ensures { OnOk result (self.new ≡ spec.with_found (spec.dollar_reports rules at (seen token.entry)) self.old) }
    {
        if rules.dollar_braces || !is_dollar_brace(token.kind) {
            return Ok(());
        }
        let start = past_bytes(at, token.lead)?;
        let end = past_bytes(start, token.text)?;
        add_off(start, end, RuleId::DollarBrace, &mut self.found)
    }

    // Behind a token outside names, or the first one of a name, with these parts behind it.
    fn first(
        &mut self,
        rules: Rules,
        at: u32,
        token: Word,
        ahead: Ahead,
        behind: Parts,
    ) -> Result<(), AllocError>
        ensures { (h : Head) → ahead ≡ shown h →
            OnOk result (self.new ≡ spec.first_off rules at (seen token.entry) h (forest_in behind.entry) self.old) }
    {
        self.trivia(rules, at, token)?;
        self.name(rules, at, token, ahead, behind)?;
        self.dollar(rules, at, token)
    }

    /// Behind a token that is no part of a name, with these parts behind it.
    pub(crate) fn alone(
        &mut self,
        rules: Rules,
        at: u32,
        token: Word,
        behind: Parts,
    ) -> Result<(), AllocError>
        ensures { OnOk result (self.new ≡ spec.first_off rules at (seen token.entry)
            (record { more = zero; token = token_by rules (seen token.entry) }) (forest_in behind.entry) self.old) }
    {
        self.first(rules, at, token, alone(false, token), behind)
    }

    /// Behind a token that begins these parts, with others behind it, where the next so many tokens are inside a name.
    /// Answers how many are then.
    pub(crate) fn token(
        &mut self,
        rules: Rules,
        inner: usize,
        at: u32,
        token: Word,
        parts: Parts,
        behind: Parts,
    ) -> Result<usize, AllocError>
        requires { forest_in parts ≡ leaf_then (seen token) (forest_in behind) }
        ensures { (around : Bool → Option at_node.Around) (i : Bool) →
            IfOk result (λ n. spec.off_in rules around false n (behind_token at (seen token.entry)) (forest_in behind.entry) self.new
            ≡ spec.off_in rules around i inner at (leaf_then (seen token.entry) (forest_in behind.entry)) self.old) }
    {
        if inner > 0 {
            if !rules.split_names {
                self.trivia(rules, at, token)?;
            }
            return Ok(inner - 1);
        }
        if keeps_names(rules) {
            self.first(rules, at, token, alone(false, token), behind)?;
            return Ok(0);
        }
        let ahead = head_of_parts(true, false, token, parts)?;
        self.first(rules, at, token, ahead, behind)?;
        Ok(ahead.more)
    }

    // A node, if it is a place of a rule.
    fn node_if(
        &mut self,
        is_place: bool,
        rule: RuleId,
        kind: NodeKind,
        parts: Parts,
        at: u32,
        end: u32,
    ) -> Result<(), AllocError>
        requires { end ≡ end_of at (forest_in parts) }
        ensures { OnOk result (self.new ≡ spec.node_if is_place rule at (kind, forest_in parts.entry) self.old) }
    {
        let _kind = kind;
        if !is_place {
            return Ok(());
        }
        let start = start_of(parts, at)?.unwrap_or(at);
        add_off(start, end, rule, &mut self.found)
    }

    /// Behind a node that stands so and begins and ends at these places.
    pub(crate) fn node(
        &mut self,
        rules: Rules,
        around: Around,
        kind: NodeKind,
        parts: Parts,
        at: u32,
        end: u32,
    ) -> Result<(), AllocError>
        requires { end ≡ end_of at (forest_in parts) }
        ensures { OnOk result (self.new ≡ spec.node_off rules
            (around_of around.entry.outer around.entry.operator.now around.entry.is_first) at (kind, forest_in parts.entry) self.old) }
    {
        let operator = around.operator;
        let nests = !rules.nested_ternaries
            && is_nested(around.outer, operator, around.is_first, kind);
        self.node_if(nests, RuleId::NestedTernary, kind, parts, at, end)?;
        let regroups = !rules.dot_operands
            && is_regrouped(around.outer, operator, around.is_first, kind, parts);
        self.node_if(regroups, RuleId::DotPrecedence, kind, parts, at, end)?;
        let braced = !rules.brace_offsets && is_brace_offset(kind);
        self.node_if(braced, RuleId::BraceOffset, kind, parts, at, end)?;
        let real = !rules.real_casts && is_real_cast(kind, parts);
        self.node_if(real, RuleId::RealCast, kind, parts, at, end)?;
        let unset = !rules.unset_casts && is_edited(kind, parts);
        self.node_if(unset, RuleId::UnsetCast, kind, parts, at, end)
    }

    /// Behind tokens that no rule touches, the last one a keyword or not.
    pub(crate) fn behind_calm(&mut self, rules: Rules, is_keyword: bool)
        ensures { self.new ≡ record { behind = if rules.split_names then false else is_keyword; found = self.old.found } }
    {
        self.behind_keyword = if rules.split_names { false } else { is_keyword };
    }

    /// What is found.
    pub(crate) fn finish(self) -> Vec<Found>
        ensures { map found_of result.items ≡ self.found }
    {
        self.found
    }
}
