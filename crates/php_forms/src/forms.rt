// Forms, one or another.
ghost use Rattle.std.specs.Prelude.{◌≡◌};
ghost use Rattle.php_forms.specs.Forms.{form_view, or_else};

use crate::item::Form;

/// The first form, or else the second.
pub fn or_else(one: Option<Form>, other: Option<Form>) -> Option<Form>
    ensures { form_view result ≡ or_else (form_view one.entry) (form_view other.entry) }
{
    match one {
        Some(form) => Some(form),
        None => other,
    }
}
