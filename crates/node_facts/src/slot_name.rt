// Slots by name.

/// A slot of a program by its name, and by the number of a declaration or of a closure of its file: a variable of the files'
/// level, of a body, a static one, one of a closure or arrow function, an instance property, a static property.
#[derive(PartialEq, Eq, Hash, Drop)]
pub enum SlotName {
    File(Vec<u8>),
    Body(u32, Vec<u8>),
    Static(u32, Vec<u8>),
    Closure(u32, Vec<u8>),
    Property(Vec<u8>),
    StaticProperty(Vec<u8>),
}
