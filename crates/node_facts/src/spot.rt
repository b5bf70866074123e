// Where parts of a node stand.

/// Where parts of a node stand: the path of the file, the namespace, how many imports stand before those that count, the
/// number of the declaration whose body is around, the class and its parent, the parent of an anonymous class directly
/// around, and the number of the closure that is the innermost body.
#[derive(Clone, Copy)]
pub(crate) struct Spot<'a> {
    pub(crate) path: &'a [u8],
    pub(crate) space: &'a [u8],
    pub(crate) from: usize,
    pub(crate) body: Option<u32>,
    pub(crate) class: Option<&'a [u8]>,
    pub(crate) parent: Option<&'a [u8]>,
    pub(crate) members: Option<Option<&'a [u8]>>,
    pub(crate) closure: Option<u32>,
}
