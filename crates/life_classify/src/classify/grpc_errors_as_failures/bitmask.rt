//! Sets of status codes of gRPC.
ghost use Rattle.std.specs.Prelude.{⊤};
ghost use Rattle.life_classify.specs.Code.{bit_table};

use bitflags::{Flag, Flags, bitflag_items};

/// A set of codes: the bit of a code's number says whether it is in the set.
#[derive(Clone, Copy, Debug, PartialEq, Eq)]
pub(crate) struct GrpcCodeBitmask(pub(crate) u32);

bitflag_items! {
    impl GrpcCodeBitmask: u32 {
        const OK = 1;
        const CANCELLED = 2;
        const UNKNOWN = 4;
        const INVALID_ARGUMENT = 8;
        const DEADLINE_EXCEEDED = 16;
        const NOT_FOUND = 32;
        const ALREADY_EXISTS = 64;
        const PERMISSION_DENIED = 128;
        const RESOURCE_EXHAUSTED = 256;
        const FAILED_PRECONDITION = 512;
        const ABORTED = 1024;
        const OUT_OF_RANGE = 2048;
        const UNIMPLEMENTED = 4096;
        const INTERNAL = 8192;
        const UNAVAILABLE = 16384;
        const DATA_LOSS = 32768;
        const UNAUTHENTICATED = 65536;
    }
}

impl Flags for GrpcCodeBitmask {
    type Bits = u32;

    ghost exact = { ⊤ };

    ghost table = { bit_table };

    ghost set_of = { λ set. set.0 };

    fn flags<'a>() -> &'a [Flag<GrpcCodeBitmask>] {
        GrpcCodeBitmask::FLAGS
    }

    fn bits(&self) -> u32 {
        self.0
    }

    fn from_bits_retain(bits: u32) -> GrpcCodeBitmask {
        GrpcCodeBitmask(bits)
    }
}
