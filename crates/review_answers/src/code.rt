// Statuses of answers.
ghost use Rattle.std.specs.Prelude.{◌≡◌};
ghost use Rattle.review_answers.specs.Answers.{number_of, reason_of};

/// What an answer says first: its status.
#[derive(Clone, Copy, Debug, PartialEq, Eq)]
pub enum Code {
    /// What was asked for.
    Fine,
    /// A job was stored.
    Created,
    /// The head, an owner, a key, a length or a body is none.
    BadRequest,
    /// No route, job, file or report.
    NotFound,
    /// The route has another method.
    MethodNotAllowed,
    /// A key with another request, a closed job, or as many jobs as an owner may have.
    Conflict,
    /// No length is stated.
    LengthRequired,
    /// The stated length is too great.
    ContentTooLarge,
    /// The upgrade is refused.
    UnprocessableContent,
    /// The head is too long, or has too many fields.
    HeaderFieldsTooLarge,
    /// The keeper of the jobs failed.
    ServiceUnavailable,
    /// No memory was at hand.
    InsufficientStorage,
}

impl Code {
    /// The number of a status.
    pub fn number(self) -> u16
        ensures { result ≡ number_of self }
    {
        match self {
            Code::Fine => 200,
            Code::Created => 201,
            Code::BadRequest => 400,
            Code::NotFound => 404,
            Code::MethodNotAllowed => 405,
            Code::Conflict => 409,
            Code::LengthRequired => 411,
            Code::ContentTooLarge => 413,
            Code::UnprocessableContent => 422,
            Code::HeaderFieldsTooLarge => 431,
            Code::ServiceUnavailable => 503,
            Code::InsufficientStorage => 507,
        }
    }

    /// The words beside the number.
    pub fn reason(self) -> &'static str
        ensures { result.now ≡ reason_of self }
    {
        match self {
            Code::Fine => "OK",
            Code::Created => "Created",
            Code::BadRequest => "Bad Request",
            Code::NotFound => "Not Found",
            Code::MethodNotAllowed => "Method Not Allowed",
            Code::Conflict => "Conflict",
            Code::LengthRequired => "Length Required",
            Code::ContentTooLarge => "Content Too Large",
            Code::UnprocessableContent => "Unprocessable Content",
            Code::HeaderFieldsTooLarge => "Request Header Fields Too Large",
            Code::ServiceUnavailable => "Service Unavailable",
            Code::InsufficientStorage => "Insufficient Storage",
        }
    }
}
