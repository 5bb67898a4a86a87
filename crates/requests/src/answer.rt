use crate::status::Status;

/// The answer to a request.
#[derive(Drop)]
pub struct Answer {
    pub status: Status,
    pub body: Vec<u8>,
}

/// What kind of text a body is.
#[derive(Clone, Copy)]
pub enum Content {
    /// `text/plain; charset=utf-8`
    Text,
    /// `application/json`
    Json,
}
