//! Tracing of requests, after the module `trace` of tower-http.

mod body;
mod future;
mod headers;
mod layer;
mod make_span;
mod on_body_chunk;
mod on_eos;
mod on_failure;
mod on_request;
mod on_response;
mod service;
mod status;
mod tail;

pub use body::ResponseBody;
pub use future::ResponseFuture;
pub use layer::{GrpcMakeClassifier, HttpMakeClassifier, TraceLayer};
use life_core::{LatencyUnit, Level};
pub use make_span::{DefaultMakeSpan, MakeSpan};
pub use on_body_chunk::{DefaultOnBodyChunk, NoteChunk, OnBodyChunk};
pub use on_eos::{DefaultOnEos, OnEos};
pub use on_failure::{DefaultOnFailure, OnFailure};
pub use on_request::{DefaultOnRequest, OnRequest};
pub use on_response::{DefaultOnResponse, OnResponse};
pub use service::Trace;
pub use tail::Tail;

/// The level of what is told of each request.
const DEFAULT_MESSAGE_LEVEL: Level = Level::Debug;

/// The level of what is told of failures.
const DEFAULT_ERROR_LEVEL: Level = Level::Error;

/// The unit in which lengths of time are told where none is set.
const DEFAULT_LATENCY_UNIT: LatencyUnit = LatencyUnit::Millis;
