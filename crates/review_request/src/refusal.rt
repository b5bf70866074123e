// Why a request is refused by what it says of itself.
ghost use Rattle.std.specs.Prelude.{◌≡◌, ◌<◌};
ghost use Rattle.review_request.specs.Refusals.{status_of, word_of};

/// Why a request is refused before its body is looked at.
#[derive(Clone, Copy, Debug, PartialEq, Eq)]
pub enum Refusal {
    /// 16,384 bytes came and the head hasn't ended in them, or it has more than 32 fields.
    LongHead,
    /// The input ended before the head did, or the head isn't one of HTTP/1.0 or 1.1.
    BadHead,
    /// The path has no route.
    NoRoute,
    /// The route has another method.
    WrongMethod,
    /// Not exactly one owner, or for a new job not exactly one key, of 1 to 64 visible bytes.
    BadOwner,
    /// A POST without a length.
    NoLength,
    /// A POST with a transfer coding, two lengths, or one that isn't 1 to 10 digits.
    BadLength,
    /// A body of more than 4,194,304 bytes.
    LongBody,
    /// The input ended inside the body.
    BadBody,
}

impl Refusal {
    /// The status of the answer.
    pub fn status(self) -> u16
        ensures status { result ≡ status_of self }
        ensures refused { result < 500 }
    {
        match self {
            Refusal::LongHead => 431,
            Refusal::BadHead => 400,
            Refusal::NoRoute => 404,
            Refusal::WrongMethod => 405,
            Refusal::BadOwner => 400,
            Refusal::NoLength => 411,
            Refusal::BadLength => 400,
            Refusal::LongBody => 413,
            Refusal::BadBody => 400,
        }
    }

    /// The word of the answer's body.
    pub fn word(self) -> &'static str
        ensures { result.now ≡ word_of self }
    {
        match self {
            Refusal::LongHead | Refusal::BadHead => "head",
            Refusal::NoRoute => "route",
            Refusal::WrongMethod => "method",
            Refusal::BadOwner => "owner",
            Refusal::NoLength | Refusal::BadLength => "length",
            Refusal::LongBody | Refusal::BadBody => "body",
        }
    }
}
