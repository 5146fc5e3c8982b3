//! What a step answers.
use http::StatusCode;
use life_core::{BodyError, Fields, Octets, Text};

/// What a frame held.
#[derive(Debug, Drop)]
pub enum Seen {
    /// Bytes of the body.
    Chunk(Octets),
    /// The trailers after them.
    Trailers(Fields),
}

/// What a step answered. `ended` is whether the live body tells its end after this answer.
#[derive(Debug, Drop)]
pub enum Answer {
    /// The request was called.
    Called,
    /// There was nothing to do.
    Idle,
    /// What is live is not ready yet.
    Pending,
    /// The response, whose body is live from now on.
    Response {
        status: StatusCode,
        headers: Fields,
        ended: bool,
    },
    /// The service failed, and this is the text of its error.
    ServiceError(Text),
    /// A frame of the live body.
    Frame {
        frame: Seen,
        ended: bool,
    },
    /// The end of the body.
    End,
    /// A fault of the body.
    Fault(BodyError<Text>),
    /// What was live was abandoned.
    Dropped,
}
