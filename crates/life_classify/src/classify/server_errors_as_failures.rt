//! The default classifier of HTTP responses.
ghost use Rattle.std.specs.Prelude.{◌≡◌, Ok};

use crate::classify::never_classify_eos::NeverClassifyEos;
use crate::classify::shared_classifier::SharedClassifier;
use crate::classify::traits::{ClassifiedResponse, ClassifyResponse};
use http::StatusCode;
use life_core::{Got, Response, Text, Twin};
use std::alloc::Global;
use std::fmt;
use std::fmt::Display;

/// Responses with a status from 500 to 599 failed, and all others succeeded.
#[derive(Debug, Drop)]
pub struct ServerErrorsAsFailures {
    _priv: (),
}

impl ServerErrorsAsFailures {
    ghost use Rattle.life_classify.specs.Shared.{shared};
    ghost use Rattle.life_classify.specs.Status.{server_errors};

    /// The classifier.
    pub fn new() -> ServerErrorsAsFailures
        ensures { result ≡ server_errors }
    {
        ServerErrorsAsFailures { _priv: () }
    }

    /// The maker of twins of the classifier.
    pub fn make_classifier() -> SharedClassifier<ServerErrorsAsFailures>
        ensures { result ≡ shared server_errors }
    {
        SharedClassifier::new(ServerErrorsAsFailures::new())
    }
}

impl Default for ServerErrorsAsFailures {
    ghost use Rattle.life_classify.specs.Status.{server_errors};

    ghost is_default = { λ classifier. classifier ≡ server_errors };

    fn default() -> ServerErrorsAsFailures {
        ServerErrorsAsFailures::new()
    }
}

impl ClassifyResponse for ServerErrorsAsFailures {
    type FailureClass = ServerErrorsFailureClass;

    type ClassifyEos = NeverClassifyEos<ServerErrorsFailureClass>;

    ghost use Rattle.std.specs.Prelude.{⊤};
    ghost use Rattle.life_classify.specs.Status.{ByStatus, ByText, is_between};
    ghost use Rattle.life_classify.specs.declared.classify.server_errors_as_failures.ServerErrorsFailureClass.TheVariants as failure;

    ghost may = { λ _. ⊤ };

    ghost classifies_response = { λ _. ByStatus (is_between 500 599) failure.StatusCode };

    ghost classifies_error = { λ _. ByText failure.Error };

    fn classify_response<B, X>(
        self,
        _alloc: Global,
        res: &Response<B, X>,
    ) -> Got<
        ClassifiedResponse<ServerErrorsFailureClass, NeverClassifyEos<ServerErrorsFailureClass>>,
    > {
        let status = res.status();
        if status.is_server_error() {
            Ok(ClassifiedResponse::Ready(Err(ServerErrorsFailureClass::StatusCode(status))))
        } else {
            Ok(ClassifiedResponse::Ready(Ok(())))
        }
    }

    fn classify_error<E: Display>(self, alloc: Global, error: &E) -> Got<ServerErrorsFailureClass> {
        let text = Text::shown(alloc, error)?;
        Ok(ServerErrorsFailureClass::Error(text))
    }
}

impl Twin for ServerErrorsAsFailures {
    /// An equal classifier. It takes no memory.
    fn twin(&self, _alloc: Global) -> Got<ServerErrorsAsFailures>
        ensures { result ≡ Ok self.now }
    {
        Ok(ServerErrorsAsFailures { _priv: () })
    }
}

/// What `ServerErrorsAsFailures` classifies a failure as.
#[derive(Debug, Drop)]
pub enum ServerErrorsFailureClass {
    /// A response with this status.
    StatusCode(StatusCode),
    /// An error that showed this text.
    Error(Text),
}

impl Display for ServerErrorsFailureClass {
    ghost use Rattle.life_classify.specs.Status.{server_class_text};

    ghost output = { server_class_text };

    fn fmt<W: fmt::Write>(&self, f: &mut fmt::Formatter<W>) -> fmt::Result {
        match self {
            ServerErrorsFailureClass::StatusCode(status) => write!(f, "Status code: {status}"),
            ServerErrorsFailureClass::Error(text) => write!(f, "Error: {}", text.as_str()),
        }
    }
}
