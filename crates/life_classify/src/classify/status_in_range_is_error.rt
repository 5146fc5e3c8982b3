//! A classifier by a range of statuses.
ghost use Rattle.std.specs.Prelude.{◌≡◌, ℕ, Ok};
ghost use Rattle.std.specs.Result.{OkIff};

use crate::classify::never_classify_eos::NeverClassifyEos;
use crate::classify::shared_classifier::SharedClassifier;
use crate::classify::traits::{ClassifiedResponse, ClassifyResponse};
use http::StatusCode;
use life_core::{Got, Response, Text, Twin};
use std::alloc::Global;
use std::fmt;
use std::fmt::Display;
use std::ops::RangeInclusive;

/// An end of a range is no status code: it is not from 100 to 999.
#[derive(Clone, Copy, Debug)]
pub struct BadStatusRange;

/// Responses with a status in a range failed, and all others succeeded.
#[derive(Debug, Drop)]
pub struct StatusInRangeAsFailures {
    range: RangeInclusive<u16>,
}

impl StatusInRangeAsFailures {
    ghost use Rattle.life_classify.specs.Shared.{shared};
    ghost use Rattle.life_classify.specs.Status.{HasStatusEnds, failures_in, fails, is_between};

    /// The classifier by this range, both of whose ends must be from 100 to 999. A range that runs backwards
    /// contains nothing. It takes no memory.
    pub fn new(range: RangeInclusive<u16>) -> Result<StatusInRangeAsFailures, BadStatusRange>
        ensures { OkIff result (HasStatusEnds range) (failures_in range) }
    {
        if StatusCode::from_u16(*range.start()).is_err() {
            return Err(BadStatusRange);
        }
        if StatusCode::from_u16(*range.end()).is_err() {
            return Err(BadStatusRange);
        }
        Ok(StatusInRangeAsFailures { range })
    }

    /// The classifier by the range from 400 to 599. It takes no memory.
    pub fn new_for_client_and_server_errors() -> StatusInRangeAsFailures
        ensures { (status : ℕ) → fails result status ≡ is_between 400 599 status }
    {
        StatusInRangeAsFailures { range: 400..=599 }
    }

    /// The maker of twins of the classifier.
    pub fn into_make_classifier(self) -> SharedClassifier<StatusInRangeAsFailures>
        ensures { result ≡ shared self }
    {
        SharedClassifier::new(self)
    }
}

impl ClassifyResponse for StatusInRangeAsFailures {
    type FailureClass = StatusInRangeFailureClass;

    type ClassifyEos = NeverClassifyEos<StatusInRangeFailureClass>;

    ghost use Rattle.std.specs.Prelude.{⊤};
    ghost use Rattle.life_classify.specs.Status.{ByStatus, ByText, fails};
    ghost use Rattle.life_classify.specs.declared.classify.status_in_range_is_error.StatusInRangeFailureClass.TheVariants as failure;

    ghost may = { λ _. ⊤ };

    ghost classifies_response = { λ classifier. ByStatus (fails classifier) failure.StatusCode };

    ghost classifies_error = { λ _. ByText failure.Error };

    fn classify_response<B, X>(
        self,
        _alloc: Global,
        res: &Response<B, X>,
    ) -> Got<
        ClassifiedResponse<StatusInRangeFailureClass, NeverClassifyEos<StatusInRangeFailureClass>>,
    > {
        let status = res.status();
        if self.range.contains(&status.as_u16()) {
            Ok(ClassifiedResponse::Ready(Err(StatusInRangeFailureClass::StatusCode(status))))
        } else {
            Ok(ClassifiedResponse::Ready(Ok(())))
        }
    }

    fn classify_error<E: Display>(
        self,
        alloc: Global,
        error: &E,
    ) -> Got<StatusInRangeFailureClass> {
        let text = Text::shown(alloc, error)?;
        Ok(StatusInRangeFailureClass::Error(text))
    }
}

impl Twin for StatusInRangeAsFailures {
    /// An equal classifier. It takes no memory.
    fn twin(&self, _alloc: Global) -> Got<StatusInRangeAsFailures>
        ensures { result ≡ Ok self.now }
    {
        let range = self.range.clone()?;
        Ok(StatusInRangeAsFailures { range })
    }
}

/// What `StatusInRangeAsFailures` classifies a failure as.
#[derive(Debug, Drop)]
pub enum StatusInRangeFailureClass {
    /// A response with this status.
    StatusCode(StatusCode),
    /// An error that showed this text.
    Error(Text),
}

impl Display for StatusInRangeFailureClass {
    ghost use Rattle.life_classify.specs.Status.{ranged_class_text};

    ghost output = { ranged_class_text };

    fn fmt<W: fmt::Write>(&self, f: &mut fmt::Formatter<W>) -> fmt::Result {
        match self {
            StatusInRangeFailureClass::StatusCode(status) => write!(f, "Status code: {status}"),
            StatusInRangeFailureClass::Error(text) => write!(f, "Error: {}", text.as_str()),
        }
    }
}
