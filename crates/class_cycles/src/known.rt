// The classes that every program knows.
ghost use Rattle.std.specs.Prelude.{◌≡◌};
ghost use Rattle.std.specs.Str.{bytes_eq};
ghost use Rattle.program_names.specs.Classes.{known_classes, place_of};
ghost use Rattle.class_cycles.specs.Others.{found_or};

// A place, if this class stands there, or else one behind it.
fn known_at(class: &[u8], known: &[u8], place: u32, behind: Option<u32>) -> Option<u32>
    ensures { result ≡ found_or (bytes_eq class.now known.now) place behind }
{
    if class == known { Some(place) } else { behind }
}

/// The number of a class that every program knows, by its name in lower case (PHP manual, "Predefined Interfaces and
/// Classes", "Predefined Exceptions").
pub(crate) fn known_number(class: &[u8]) -> Option<u32>
    ensures { result ≡ place_of class.now known_classes }
{
    let tenth = known_at(class, b"runtimeexception", 10, None);
    let ninth = known_at(class, b"logicexception", 9, tenth);
    let eighth = known_at(class, b"errorexception", 8, ninth);
    let seventh = known_at(class, b"divisionbyzeroerror", 7, eighth);
    let sixth = known_at(class, b"arithmeticerror", 6, seventh);
    let fifth = known_at(class, b"argumentcounterror", 5, sixth);
    let fourth = known_at(class, b"typeerror", 4, fifth);
    let third = known_at(class, b"error", 3, fourth);
    let second = known_at(class, b"exception", 2, third);
    let first = known_at(class, b"throwable", 1, second);
    known_at(class, b"stdclass", 0, first)
}
