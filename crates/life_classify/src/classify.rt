//! Tools for classifying responses as successes or failures, after the module `classify` of tower-http.

mod drive_classifier;
mod grpc_errors_as_failures;
mod map_failure_class;
mod never_classify_eos;
mod server_errors_as_failures;
mod shared_classifier;
mod status_in_range_is_error;
mod traits;

pub use drive_classifier::{DriveClassifier, DriveClassifyEos, DriveFailureClass};
pub use grpc_errors_as_failures::{
    GrpcCode, GrpcEosErrorsAsFailures, GrpcErrorsAsFailures, GrpcFailureClass, GrpcStatus,
    ParsedGrpcStatus, grpc_metadata,
};
pub use map_failure_class::MapFailureClass;
pub use never_classify_eos::NeverClassifyEos;
pub use server_errors_as_failures::{ServerErrorsAsFailures, ServerErrorsFailureClass};
pub use shared_classifier::SharedClassifier;
pub use status_in_range_is_error::{
    BadStatusRange, StatusInRangeAsFailures, StatusInRangeFailureClass,
};
pub use traits::{ClassifiedResponse, ClassifyEos, ClassifyResponse, MakeClassifier};
