ghost use Rattle.std.specs.Prelude.{◌≡◌};
ghost use Rattle.requests.specs.Answers.{status_of, body_of, always_closes, allow_of};
ghost use Rattle.requests.specs.Verdicts.{method_text};

use crate::status::Status;

/// The methods of the routes.
#[derive(Clone, Copy)]
pub enum Method {
    Get,
    Post,
}

impl Method {
    pub(crate) fn text(self) -> &'static [u8]
        ensures { result.now ≡ method_text self }
    {
        match self {
            Method::Get => b"GET",
            Method::Post => b"POST",
        }
    }
}

/// The answers that need no call, in the order of their tests. Those up to `BodyTooLarge` come before the body is read,
/// and end the connection.
#[derive(Clone, Copy)]
pub enum FixedAnswer {
    /// What was read is no head, or a head of more than `MAX_FIELDS` fields: 400.
    BadRequest,
    /// `MAX_HEAD` bytes are not yet a whole head: 431.
    HeadTooLarge,
    /// A field `Transfer-Encoding`: 501.
    TransferEncoding,
    /// Two fields `Content-Length`, or one that is not 1 to 19 digits: 400.
    BadLength,
    /// A POST without `Content-Length`: 411.
    LengthRequired,
    /// A body of more than 4,194,304 bytes: 413.
    BodyTooLarge,
    /// The target is none of the routes: 404.
    NotFound,
    /// The route has another method: 405.
    MethodNotAllowed(Method),
    /// `GET /ready`: 200.
    Ready,
    /// No `X-Scope-OrgID`, or an empty one: 401.
    NoOrgId,
    /// Two of them, or no lawful tenant: 400.
    BadTenant,
    /// A field `Content-Encoding`: 415.
    ContentEncoding,
    /// Not exactly one `Content-Type`, or one other than `application/json`: 415.
    ContentType,
}

impl FixedAnswer {
    /// The status.
    pub fn status(self) -> Status
        ensures { result ≡ status_of self }
    {
        match self {
            FixedAnswer::BadRequest => Status::BadRequest,
            FixedAnswer::HeadTooLarge => Status::RequestHeaderFieldsTooLarge,
            FixedAnswer::TransferEncoding => Status::NotImplemented,
            FixedAnswer::BadLength => Status::BadRequest,
            FixedAnswer::LengthRequired => Status::LengthRequired,
            FixedAnswer::BodyTooLarge => Status::ContentTooLarge,
            FixedAnswer::NotFound => Status::NotFound,
            FixedAnswer::MethodNotAllowed(_) => Status::MethodNotAllowed,
            FixedAnswer::Ready => Status::Ok,
            FixedAnswer::NoOrgId => Status::Unauthorized,
            FixedAnswer::BadTenant => Status::BadRequest,
            FixedAnswer::ContentEncoding => Status::UnsupportedMediaType,
            FixedAnswer::ContentType => Status::UnsupportedMediaType,
        }
    }

    /// The body.
    pub fn body(self) -> &'static [u8]
        ensures { result.now ≡ body_of self }
    {
        match self {
            FixedAnswer::BadRequest => b"bad request",
            FixedAnswer::HeadTooLarge => b"head too large",
            FixedAnswer::TransferEncoding => b"transfer encoding is not supported",
            FixedAnswer::BadLength => b"bad content length",
            FixedAnswer::LengthRequired => b"length required",
            FixedAnswer::BodyTooLarge => b"body too large",
            FixedAnswer::NotFound => b"not found",
            FixedAnswer::MethodNotAllowed(_) => b"method not allowed",
            FixedAnswer::Ready => b"ready",
            FixedAnswer::NoOrgId => b"no org id",
            FixedAnswer::BadTenant => b"bad tenant",
            FixedAnswer::ContentEncoding => b"content encoding is not supported",
            FixedAnswer::ContentType => b"content type must be application/json",
        }
    }

    /// Whether the connection ends after it, whatever the request asked for.
    pub fn always_closes(self) -> bool
        ensures { result ≡ always_closes self }
    {
        match self {
            FixedAnswer::BadRequest
            | FixedAnswer::HeadTooLarge
            | FixedAnswer::TransferEncoding
            | FixedAnswer::BadLength
            | FixedAnswer::LengthRequired
            | FixedAnswer::BodyTooLarge => true,
            _ => false,
        }
    }

    /// The method that the answer names in `Allow`.
    pub fn allow(self) -> Option<Method>
        ensures { result ≡ allow_of self }
    {
        match self {
            FixedAnswer::MethodNotAllowed(method) => Some(method),
            _ => None,
        }
    }
}
