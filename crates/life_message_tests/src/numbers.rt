//! The status codes of gRPC and their numbers.
use life_classify::classify::GrpcCode;
use std::num::NonZeroI32;

#[test]
fn numbers_of_codes(rt: HostRuntime) {
    let codes = [
        GrpcCode::Ok,
        GrpcCode::Cancelled,
        GrpcCode::Unknown,
        GrpcCode::InvalidArgument,
        GrpcCode::DeadlineExceeded,
        GrpcCode::NotFound,
        GrpcCode::AlreadyExists,
        GrpcCode::PermissionDenied,
        GrpcCode::ResourceExhausted,
        GrpcCode::FailedPrecondition,
        GrpcCode::Aborted,
        GrpcCode::OutOfRange,
        GrpcCode::Unimplemented,
        GrpcCode::Internal,
        GrpcCode::Unavailable,
        GrpcCode::DataLoss,
        GrpcCode::Unauthenticated,
    ];
    for (number, code) in (0..17).zip(codes) {
        assert_eq!(rt; code.number(), number);
        assert!(rt; GrpcCode::from(number) == code, "{number}");
    }
    for number in [-1, 17, 99, i32::MAX, i32::MIN] {
        assert!(rt; GrpcCode::from(number) == GrpcCode::Unknown, "{number}");
    }
    for (number, want) in [(16, GrpcCode::Unauthenticated), (99, GrpcCode::Unknown)] {
        match NonZeroI32::new(number) {
            Some(number) => assert!(rt; GrpcCode::from(number) == want, "{number}"),
            None => panic!(rt; "{number} is 0"),
        }
    }
}
