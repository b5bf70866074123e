// Laws of tokens, of which each function's contract is one. None of them does anything.
ghost use Rattle.php_lexer.specs.Laws.{OneTokenList, OneFault, NotBoth, NoByteLost, Utf8Kept};

/// Bytes have at most one list of tokens.
pub fn one_token_list()
    ensures { OneTokenList }
{}

/// Bytes have at most one fault.
pub fn one_fault()
    ensures { OneFault }
{}

/// Bytes that a fault stops have no list of tokens.
pub fn tokens_or_fault()
    ensures { NotBoth }
{}

/// The leads and texts of the tokens, joined in order, are the bytes.
pub fn no_byte_is_lost()
    ensures { NoByteLost }
{}

/// Of UTF-8 bytes every lead and text is UTF-8.
pub fn utf8_is_kept()
    ensures { Utf8Kept }
{}
