// The fields of a head by their names.
ghost use Rattle.std.specs.Prelude.{◌≡◌, map};
ghost use Rattle.std.specs.List.{list_all, list_any};
ghost use Rattle.std.specs.Option.{option_map};
ghost use Rattle.std.specs.Str.{str_eq_ignore_ascii_case};
ghost use Rattle.review_request.specs.Fields.{is_field, is_visible, is_visible_byte, only_one, values_of};
ghost use Rattle.review_request.specs.Head.{field_parts};

use crate::head::Field;

// Whether a field has this name, whose letters may be of either case.
fn has_name(field: &Field, name: &[u8]) -> bool
    ensures { result ≡ str_eq_ignore_ascii_case field.now.name.items name.now }
{
    field.name.as_slice().eq_ignore_ascii_case(name)
}

/// The value of the only field with this name, whose letters may be of either case. None: there is
/// none, or more than one.
pub fn only<'f>(fields: &'f [Field], name: &[u8]) -> Option<&'f [u8]>
    ensures { option_map (λ v. v.now) result ≡ only_one (values_of name.now (map field_parts fields.now)) }
{
    let mut found = None;
    for field in fields {
        if has_name(field, name) {
            if found.is_some() {
                return None;
            }
            found = Some(field.value.as_slice());
        }
    }
    found
}

// Whether some field has this name.
fn is_named(fields: &[Field], name: &[u8]) -> bool
    ensures { result ≡ list_any (λ f. str_eq_ignore_ascii_case f.name.items name.now) fields.now }
{
    fields.iter().any(|field| has_name(field, name))
}

/// Whether some field has this name, whose letters may be of either case.
#[tactic(auto, using(crate::proofs::FieldLemmas::is_field_parts))]
pub fn has(fields: &[Field], name: &[u8]) -> bool
    ensures { result ≡ is_field name.now (map field_parts fields.now) }
{
    is_named(fields, name)
}

// Whether each byte is from 33 to 126.
fn are_visible(text: &[u8]) -> bool
    ensures { result ≡ list_all is_visible_byte text.now }
{
    text.iter().all(|b| *b >= 33 && *b <= 126)
}

/// Whether a text may stand for an owner or a key: 1 to 64 bytes from 33 to 126.
pub fn is_visible(text: &[u8]) -> bool
    ensures { result ≡ is_visible text.now }
{
    if text.is_empty() || text.len() > 64 {
        return false;
    }
    are_visible(text)
}
