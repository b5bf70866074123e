// The end of a file.
ghost use Rattle.std.specs.Prelude.{◌≡◌};
ghost use Rattle.php_parser.specs.Ends.{is_end};

use php_tree::TokenKind;

/// Whether a token is the end of the file.
pub fn is_end(kind: TokenKind) -> bool
    ensures { result ≡ is_end kind }
{
    match kind {
        TokenKind::End => true,
        TokenKind::InlineHtml | TokenKind::OpenEcho | TokenKind::Variable | TokenKind::Label =>
            false,
        TokenKind::Keyword | TokenKind::Int | TokenKind::Float | TokenKind::Text => false,
        TokenKind::Quote | TokenKind::HeredocStart | TokenKind::Backtick | TokenKind::Cast => false,
        TokenKind::Op | TokenKind::AttributeOpen | TokenKind::Name | TokenKind::Semi => false,
        TokenKind::Close | TokenKind::Piece | TokenKind::CurlyOpen | TokenKind::DollarBrace =>
            false,
        TokenKind::VarName | TokenKind::QuotedEnd => false,
    }
}
