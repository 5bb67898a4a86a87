ghost use Rattle.std.specs.Prelude.{◌≡◌};
ghost use Rattle.requests.specs.Fields.{before};
ghost use Rattle.requests.specs.Verdicts.{endpoint_of, method_of};

use crate::fixed::Method;

/// What a request with calls asks for.
#[derive(Clone, Copy)]
pub enum Route {
    /// `POST /loki/api/v1/push`
    Push,
    /// `POST /ingester/v1/read`
    Read,
    /// `POST /ingester/v1/trim`
    Trim,
}

/// What a path names.
#[derive(Clone, Copy)]
pub(crate) enum Endpoint {
    Call(Route),
    /// `GET /ready`
    Ready,
}

impl Endpoint {
    /// The endpoint of this path.
    pub(crate) fn find(path: &[u8]) -> Option<Endpoint>
        ensures { result ≡ endpoint_of path.now }
    {
        if path == b"/loki/api/v1/push".as_slice() {
            return Some(Endpoint::Call(Route::Push));
        }
        if path == b"/ingester/v1/read".as_slice() {
            return Some(Endpoint::Call(Route::Read));
        }
        if path == b"/ingester/v1/trim".as_slice() {
            return Some(Endpoint::Call(Route::Trim));
        }
        if path == b"/ready".as_slice() {
            return Some(Endpoint::Ready);
        }
        None
    }

    /// The one method that is answered there.
    pub(crate) fn method(self) -> Method
        ensures { result ≡ method_of self }
    {
        match self {
            Endpoint::Call(_) => Method::Post,
            Endpoint::Ready => Method::Get,
        }
    }
}
