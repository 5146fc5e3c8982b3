//! Classifiers by status.
use crate::asserting::{response_of, shows};
use http::StatusCode;
use life_classify::classify::{
    BadStatusRange, ClassifiedResponse, ClassifyResponse, DriveClassifier, MakeClassifier,
    ServerErrorsAsFailures, ServerErrorsFailureClass, StatusInRangeAsFailures,
};
use life_core::{Request, Twin};
use std::alloc::AllocGlobal;
use std::fmt::Display;
use std::process::Abort;
use std::test::Fail;

/// Asserts what a classifier tells of a status: a failure with this text, or a success.
fn tells<C: ClassifyResponse>(
    rt: &(impl Abort + AllocGlobal),
    classifier: C,
    status: u16,
    want: Option<&str>,
)
where
    C::FailureClass: Display,
    requires { C.may classifier }
{
    let response = response_of(rt, status);
    let told = classifier.classify_response(rt.alloc(), &response);
    let (head, ()) = response.into_parts();
    drop(head);
    match (told, want) {
        (Ok(ClassifiedResponse::Ready(Ok(()))), None) => (),
        (Ok(ClassifiedResponse::Ready(Err(class))), Some(want)) => shows(rt, &class, want),
        _ => panic!(rt; "{status} is told otherwise"),
    }
}

#[test]
fn ranges(rt: HostRuntime) -> Result<(), Fail> {
    let rows: [(u16, u16, u16, Option<&str>); 10] = [
        (400, 599, 200, None),
        (400, 599, 399, None),
        (400, 599, 400, Some("Status code: 400 Bad Request")),
        (
            400,
            599,
            500,
            Some("Status code: 500 Internal Server Error"),
        ),
        (
            400,
            599,
            599,
            Some("Status code: 599 <unknown status code>"),
        ),
        (400, 599, 600, None),
        (599, 400, 500, None),
        (
            200,
            299,
            299,
            Some("Status code: 299 <unknown status code>"),
        ),
        (
            100,
            999,
            999,
            Some("Status code: 999 <unknown status code>"),
        ),
        (404, 404, 404, Some("Status code: 404 Not Found")),
    ];
    for (first, last, status, want) in rows {
        match StatusInRangeAsFailures::new(first..=last) {
            Ok(classifier) => tells(&rt, classifier, status, want),
            Err(BadStatusRange) => panic!(rt; "{first} to {last}"),
        }
    }
    for (first, last) in [(99, 599), (400, 1000), (0, 65535), (1000, 100)] {
        assert!(rt;
            StatusInRangeAsFailures::new(first..=last).is_err(),
            "{first} to {last}"
        );
    }
    match StatusCode::from_u16(299) {
        Ok(status) => shows(&rt, &status, "299 <unknown status code>"),
        Err(_) => panic!(rt; "299 is no status"),
    }
    Ok(())
}

#[test]
fn server_errors(rt: HostRuntime) {
    let rows: [(u16, Option<&str>); 7] = [
        (100, None),
        (200, None),
        (404, None),
        (499, None),
        (500, Some("Status code: 500 Internal Server Error")),
        (599, Some("Status code: 599 <unknown status code>")),
        (600, None),
    ];
    for (status, want) in rows {
        tells(&rt, ServerErrorsAsFailures::new(), status, want);
        tells(&rt, DriveClassifier::Http, status, want);
    }
}

#[test]
fn client_and_server_errors(rt: HostRuntime) {
    let rows: [(u16, Option<&str>); 4] = [
        (399, None),
        (400, Some("Status code: 400 Bad Request")),
        (599, Some("Status code: 599 <unknown status code>")),
        (600, None),
    ];
    for (status, want) in rows {
        let classifier = StatusInRangeAsFailures::new_for_client_and_server_errors();
        tells(&rt, classifier, status, want);
    }
}

/// The number of a status, and 0 for an error.
fn number_of(class: ServerErrorsFailureClass) -> u16 {
    match class {
        ServerErrorsFailureClass::StatusCode(status) => status.as_u16(),
        ServerErrorsFailureClass::Error(_) => 0,
    }
}

#[test]
fn mapped_classes(rt: HostRuntime) -> Result<(), Fail> {
    let alloc = rt.alloc();
    for (status, want) in [(500, Some("500")), (200, None)] {
        let classifier = ServerErrorsAsFailures::default().map_failure_class(number_of);
        tells(&rt, classifier.twin(alloc)?, status, want);
    }
    let mapped = ServerErrorsAsFailures::new().map_failure_class(number_of);
    assert_eq!(rt;
        ClassifyResponse::classify_error(mapped, alloc, &"boom")?,
        0
    );
    shows(
        &rt,
        &ServerErrorsAsFailures::new().classify_error(alloc, &"boom")?,
        "Error: boom",
    );
    shows(
        &rt,
        &DriveClassifier::Http.classify_error(alloc, &"boom")?,
        "Error: boom",
    );
    let ranged = StatusInRangeAsFailures::new_for_client_and_server_errors();
    shows(&rt, &ranged.classify_error(alloc, &"boom")?, "Error: boom");
    Ok(())
}

/// Asserts what the classifier that is made for a request tells of status 500.
fn makes<M: MakeClassifier<u8>>(rt: &(impl Abort + AllocGlobal), maker: &M, want: Option<&str>)
where
    M::FailureClass: Display,
    requires { M.may maker.now }
{
    let request = Request::new(rt.alloc(), (), 7);
    let made = maker.make_classifier(rt.alloc(), &request);
    let (head, ()) = request.into_parts();
    drop(head);
    match made {
        Ok(classifier) => tells(rt, classifier, 500, want),
        Err(_) => panic!(rt; "no memory"),
    }
}

#[test]
fn shared_classifiers(rt: HostRuntime) -> Result<(), Fail> {
    let alloc = rt.alloc();
    let want = Some("Status code: 500 Internal Server Error");
    makes(
        &rt,
        &ServerErrorsAsFailures::make_classifier().twin(alloc)?,
        want,
    );
    let ranged = StatusInRangeAsFailures::new_for_client_and_server_errors();
    makes(&rt, &ranged.twin(alloc)?.into_make_classifier(), want);
    Ok(())
}
