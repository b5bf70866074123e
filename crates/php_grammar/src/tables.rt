// The tables of the grammar: which form, which parts of a group, and which form behind a node.
ghost use Rattle.std.specs.Prelude.{◌≡◌};
ghost use Rattle.php_terminals.specs.Ahead.{first_of};
ghost use Rattle.php_terminals.specs.Tokens.{tokens_in};
ghost use Rattle.php_forms.specs.Forms.{form_view};
ghost use Rattle.php_grammar.specs.Tables.{form, parts, plain_variable_form, tail_by};

use crate::operands::class_ref_form;
use crate::operands::created;
use crate::operands::entry_form;
use crate::operands::instance_ref;
use crate::operands::operand_form;
use crate::operands::place_form;
use crate::operands::simple_variable_form;
use crate::operands::target_form;
use crate::operands::yield_value;
use crate::tails::class_ref_tail;
use crate::tails::embedded_tail;
use crate::tails::entry_tail;
use crate::tails::interpolated_tail;
use crate::tails::place_tail;
use crate::tails::read_tail;
use crate::tails::target_tail;
use php_forms::atoms::VARIABLE;
use php_forms::atoms::closure_use;
use php_forms::atoms::ctor_args;
use php_forms::atoms::exit_code;
use php_forms::atoms::exit_value;
use php_forms::atoms::member;
use php_forms::atoms::more_used;
use php_forms::atoms::offset_key;
use php_forms::atoms::static_member;
use php_forms::atoms::yield_to;
use php_forms::declarations::PARAM;
use php_forms::declarations::TYPE_NAME;
use php_forms::declarations::alias;
use php_forms::declarations::by_ref;
use php_forms::declarations::class_alias;
use php_forms::declarations::class_grouped;
use php_forms::declarations::class_modifiers;
use php_forms::declarations::class_use_rest;
use php_forms::declarations::extends;
use php_forms::declarations::first_value;
use php_forms::declarations::grouped;
use php_forms::declarations::implements;
use php_forms::declarations::members;
use php_forms::declarations::method_body;
use php_forms::declarations::modifiers;
use php_forms::declarations::more_class_consts;
use php_forms::declarations::more_class_grouped;
use php_forms::declarations::more_class_uses;
use php_forms::declarations::more_consts;
use php_forms::declarations::more_grouped;
use php_forms::declarations::more_params;
use php_forms::declarations::more_uses;
use php_forms::declarations::more_variables;
use php_forms::declarations::namespace_body;
use php_forms::declarations::namespace_rest;
use php_forms::declarations::nullable;
use php_forms::declarations::param_type;
use php_forms::declarations::params;
use php_forms::declarations::parents;
use php_forms::declarations::property_type;
use php_forms::declarations::return_type;
use php_forms::declarations::trait_rules;
use php_forms::declarations::type_word;
use php_forms::declarations::use_body;
use php_forms::declarations::use_rest;
use php_forms::declarations::used_class;
use php_forms::declarations::used_grouped;
use php_forms::declarations::variadic;
use php_forms::heads::attribute;
use php_forms::heads::case_form;
use php_forms::heads::member_form;
use php_forms::heads::statement_form;
use php_forms::item::Form;
use php_forms::item::Group;
use php_forms::item::Item;
use php_forms::item::Sort;
use php_forms::lists::ARGS;
use php_forms::lists::arg_list;
use php_forms::lists::array_items;
use php_forms::lists::entry_value;
use php_forms::lists::item_form;
use php_forms::lists::item_value;
use php_forms::lists::list_head;
use php_forms::lists::list_item_form;
use php_forms::lists::list_more;
use php_forms::lists::more_args;
use php_forms::lists::more_items;
use php_forms::names::called_name;
use php_forms::names::grouped_class;
use php_forms::names::grouped_name;
use php_forms::names::imported_class;
use php_forms::names::imported_name;
use php_forms::names::more_names;
use php_forms::names::name;
use php_forms::names::name_lead;
use php_forms::names::name_more;
use php_forms::names::namespace_name;
use php_forms::names::root_lead;
use php_forms::quoted::named_key;
use php_forms::quoted::quoted_parts;
use php_forms::quoted::simple_key;
use php_forms::statements::BLOCK;
use php_forms::statements::alt_else;
use php_forms::statements::alt_else_ifs;
use php_forms::statements::case_mark;
use php_forms::statements::cases;
use php_forms::statements::catches;
use php_forms::statements::caught_names;
use php_forms::statements::declare_body;
use php_forms::statements::else_ifs;
use php_forms::statements::else_part;
use php_forms::statements::exprs;
use php_forms::statements::finally_part;
use php_forms::statements::first_semi;
use php_forms::statements::for_body;
use php_forms::statements::foreach_body;
use php_forms::statements::foreach_target;
use php_forms::statements::foreach_value;
use php_forms::statements::handlers;
use php_forms::statements::loop_count;
use php_forms::statements::more_directives;
use php_forms::statements::more_exprs;
use php_forms::statements::more_globals;
use php_forms::statements::more_unset;
use php_forms::statements::return_value;
use php_forms::statements::statements;
use php_forms::statements::switch_body;
use php_forms::statements::while_body;
use php_terminals::terminal::Terminal;
use php_terminals::tokens::Tokens;
use php_tree::NodeKind;
use php_tree::Version;

// A variable alone.
fn plain_variable_form(first: Terminal) -> Option<Form>
    ensures { form_view result ≡ plain_variable_form first }
{
    match first {
        Terminal::Variable => Some((NodeKind::Variable, &VARIABLE)),
        _ => None,
    }
}

/// The form with which a node of the sort begins, or none where the tokens begin none.
pub fn form_of(version: Version, sort: Sort, tokens: Tokens<'_>) -> Option<Form>
    ensures { form_view result ≡ form version sort (tokens_in tokens.entry) }
{
    match sort {
        Sort::Statement => statement_form(tokens),
        Sort::Block => Some((NodeKind::Block, &BLOCK)),
        Sort::Case => case_form(tokens.first()),
        Sort::Member => member_form(tokens),
        Sort::Param => Some((NodeKind::Param, &PARAM)),
        Sort::TypeName => Some((NodeKind::TypeName, &TYPE_NAME)),
        Sort::Args => Some((NodeKind::Args, &ARGS)),
        Sort::Item => Some(item_form(tokens.first())),
        Sort::ListItem => Some(list_item_form(tokens.first())),
        Sort::Operand(_) => operand_form(version, tokens),
        Sort::Entry => entry_form(version, tokens),
        Sort::Target => target_form(version, tokens),
        Sort::Place => place_form(version, tokens),
        Sort::SimpleVariable => simple_variable_form(tokens),
        Sort::PlainVariable => plain_variable_form(tokens.first()),
        Sort::ClassRef => class_ref_form(tokens),
        Sort::Interpolated => plain_variable_form(tokens.first()),
        Sort::Embedded => simple_variable_form(tokens),
    }
}

/// The items of the group, or none where it isn't there.
pub fn parts_of(version: Version, group: Group, tokens: Tokens<'_>) -> &'static [Item]
    ensures { result.now ≡ parts version group (tokens_in tokens.entry) }
{
    match group {
        Group::Name => name(version),
        Group::CalledName => called_name(version),
        Group::NamespaceName => namespace_name(version),
        Group::NameLead => name_lead(tokens.first()),
        Group::NameMore => name_more(tokens.first(), tokens.second()),
        Group::MoreNames => more_names(tokens.first()),
        Group::ImportedName => imported_name(version),
        Group::ImportedClass => imported_class(version),
        Group::GroupedName => grouped_name(version),
        Group::GroupedClass => grouped_class(version),
        Group::RootLead => root_lead(tokens.first()),
        Group::Statements => statements(tokens.first()),
        Group::ElseIfs => else_ifs(tokens.first()),
        Group::ElsePart => else_part(tokens.first()),
        Group::AltElseIfs => alt_else_ifs(tokens.first()),
        Group::AltElse => alt_else(tokens.first()),
        Group::WhileBody => while_body(tokens.first()),
        Group::ForBody => for_body(tokens.first()),
        Group::ForeachBody => foreach_body(tokens.first()),
        Group::DeclareBody => declare_body(tokens.first()),
        Group::SwitchBody => switch_body(tokens.first()),
        Group::FirstSemi => first_semi(tokens.first()),
        Group::Cases => cases(tokens.first()),
        Group::CaseMark => case_mark(tokens.first()),
        Group::MoreExprs => more_exprs(tokens.first()),
        Group::ReturnValue => return_value(tokens.first()),
        Group::Exprs => exprs(tokens.first()),
        Group::ForeachTarget => foreach_target(tokens.first()),
        Group::ForeachValue => foreach_value(tokens.first()),
        Group::LoopCount => loop_count(tokens.first()),
        Group::MoreGlobals => more_globals(tokens.first()),
        Group::Handlers => handlers(tokens.first()),
        Group::Catches => catches(tokens.first()),
        Group::CaughtNames => caught_names(tokens.first()),
        Group::FinallyPart => finally_part(tokens.first()),
        Group::MoreDirectives => more_directives(tokens.first()),
        Group::MoreUnset => more_unset(tokens.first(), tokens.second()),
        Group::ByRef => by_ref(tokens.first()),
        Group::FirstValue => first_value(tokens.first()),
        Group::MoreVariables => more_variables(tokens.first()),
        Group::Params => params(tokens.first()),
        Group::MoreParams => more_params(tokens.first()),
        Group::ParamType => param_type(tokens.first()),
        Group::Variadic => variadic(tokens.first()),
        Group::ReturnType => return_type(tokens.first()),
        Group::Nullable => nullable(tokens.first()),
        Group::TypeWord => type_word(tokens.first()),
        Group::ClassModifiers => class_modifiers(tokens.first()),
        Group::Extends => extends(tokens.first()),
        Group::Parents => parents(tokens.first()),
        Group::Implements => implements(tokens.first()),
        Group::Members => members(tokens.first()),
        Group::Modifiers => modifiers(tokens.first()),
        Group::PropertyType => property_type(tokens.first()),
        Group::MethodBody => method_body(tokens.first()),
        Group::MoreClassConsts => more_class_consts(tokens.first()),
        Group::TraitRules => trait_rules(tokens.first()),
        Group::MoreConsts => more_consts(tokens.first()),
        Group::NamespaceBody => namespace_body(tokens.first()),
        Group::NamespaceRest => namespace_rest(tokens.first()),
        Group::UseBody => use_body(tokens.first()),
        Group::UseRest => use_rest(tokens.first()),
        Group::MoreUses => more_uses(tokens.first()),
        Group::Alias => alias(tokens.first()),
        Group::Grouped => grouped(tokens.first()),
        Group::MoreGrouped => more_grouped(tokens.first(), tokens.second()),
        Group::ClassUseRest => class_use_rest(tokens.first()),
        Group::MoreClassUses => more_class_uses(tokens.first()),
        Group::ClassAlias => class_alias(tokens.first()),
        Group::ClassGrouped => class_grouped(tokens.first()),
        Group::MoreClassGrouped => more_class_grouped(tokens.first(), tokens.second()),
        Group::UsedClass => used_class(tokens.second()),
        Group::UsedGrouped => used_grouped(tokens.second()),
        Group::ArgList => arg_list(tokens.first()),
        Group::MoreArgs => more_args(tokens.first(), tokens.second()),
        Group::ArrayItems => array_items(tokens.first()),
        Group::MoreItems => more_items(tokens.first(), tokens.second()),
        Group::ItemValue => item_value(tokens.first()),
        Group::ListHead => list_head(tokens.first()),
        Group::ListMore => list_more(tokens.first()),
        Group::EntryValue => entry_value(tokens.first()),
        Group::QuotedParts => quoted_parts(tokens.first(), tokens.second()),
        Group::NamedKey => named_key(tokens.first()),
        Group::SimpleKey => simple_key(tokens.first()),
        Group::ExitValue => exit_value(tokens.first()),
        Group::ExitCode => exit_code(tokens.first()),
        Group::YieldTo => yield_to(tokens.first()),
        Group::ClosureUse => closure_use(tokens.first()),
        Group::MoreUsed => more_used(tokens.first()),
        Group::CtorArgs => ctor_args(tokens.first()),
        Group::OffsetKey => offset_key(tokens.first()),
        Group::Member => member(tokens.first()),
        Group::StaticMember => static_member(tokens.first()),
        Group::YieldValue => yield_value(version, tokens),
        Group::Created => created(tokens),
        Group::InstanceRef => instance_ref(tokens),
        Group::Attribute => attribute(version, tokens.first()),
    }
}

/// The form that goes on behind a node of the kind, which has this edge and may be misindented, or none where the node
/// ends.
pub fn tail_of(
    version: Version,
    sort: Sort,
    kind: NodeKind,
    own: u8,
    misindented: bool,
    tokens: Tokens<'_>,
) -> Option<Form>
    ensures { form_view result ≡ tail_by version sort kind own misindented (tokens_in tokens.entry) }
{
    match sort {
        Sort::Statement | Sort::Block | Sort::Case | Sort::Member | Sort::Param => None,
        Sort::TypeName | Sort::Args | Sort::Item | Sort::ListItem => None,
        Sort::Operand(limit) => read_tail(version, limit, kind, own, misindented, tokens),
        Sort::Entry => entry_tail(version, kind, own, misindented, tokens),
        Sort::Target => target_tail(version, kind, misindented, tokens),
        Sort::Place => place_tail(version, kind, misindented, tokens),
        Sort::SimpleVariable | Sort::PlainVariable => None,
        Sort::ClassRef => class_ref_tail(version, kind, tokens),
        Sort::Interpolated => interpolated_tail(kind, tokens),
        Sort::Embedded => embedded_tail(version, kind, tokens),
    }
}
