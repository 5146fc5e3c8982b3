//! Layers laid round one another.
use crate::asserting::is;
use life_core::{Got, Identity, Layer, ServiceBuilder, Stack, Twin};
use std::alloc::Global;
use std::process::Abort;

/// Puts its number before what it is laid round.
#[derive(Clone, Copy)]
struct Before(u64);

impl<S> Layer<S> for Before {
    type Service = (u64, S);

    ghost round = { λ layer inner. (layer.0, inner) };

    fn layer(&self, _alloc: Global, inner: S) -> Got<(u64, S)>
    where
        S: Drop,
    {
        Ok((self.0, inner))
    }
}

impl Twin for Before {
    fn twin(&self, _alloc: Global) -> Got<Before> {
        Ok(*self)
    }
}

/// Asserts which numbers two layers put before a number.
fn numbers_are(rt: &impl Abort, made: (u64, (u64, u64)), want: (u64, u64, u64)) {
    let (first, (second, inner)) = made;
    is(rt, "the outer number", first, want.0);
    is(rt, "the inner number", second, want.1);
    is(rt, "what is inside", inner, want.2);
}

#[test]
fn layers_of_a_builder(rt: HostRuntime) {
    let alloc = rt.alloc();
    let builder = ServiceBuilder::new().layer(Before(1)).layer(Before(2));
    let made = builder
        .twin(alloc)
        .expect(&rt, "memory")
        .service(alloc, 3u64)
        .expect(&rt, "memory");
    numbers_are(&rt, made, (1, 2, 3));
}

#[test]
fn layers_of_a_stack(rt: HostRuntime) {
    let alloc = rt.alloc();
    let stack = Stack::new(Before(1), Before(2))
        .twin(alloc)
        .expect(&rt, "memory");
    let made = stack.layer(alloc, 3u64).expect(&rt, "memory");
    numbers_are(&rt, made, (2, 1, 3));
}

#[test]
fn no_layer(rt: HostRuntime) {
    let alloc = rt.alloc();
    let alone = Identity::new()
        .twin(alloc)
        .expect(&rt, "memory")
        .layer(alloc, 3u64)
        .expect(&rt, "memory");
    is(&rt, "what is inside", alone, 3);
}
