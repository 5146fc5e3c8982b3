//! A stack that is built.
use crate::guarded;
use std::alloc::AllocGlobal;
use std::process::Abort;

#[test]
fn the_service_stands_inside(rt: HostRuntime) {
    let stack = guarded(rt.alloc(), 7u64, 10).expect(&rt, "memory");
    assert_eq!(rt; *stack.get_ref().get_ref(), 7);
}
