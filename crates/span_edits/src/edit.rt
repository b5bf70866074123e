// One edit of a source.
use crate::bytes::Bytes;
use crate::span::Span;

/// A replacement of the bytes of one span by a text. An empty span makes it an insertion.
#[derive(Debug, Drop)]
pub struct Edit {
    pub span: Span,
    pub text: Bytes,
}
