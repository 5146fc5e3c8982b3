//! Tests of what is read from messages: media types, and what counts as a failure.
#![tactic(auto)]

#[cfg(test)]
mod asserting;
#[cfg(test)]
mod grpc;
#[cfg(test)]
mod media;
#[cfg(test)]
mod numbers;
#[cfg(test)]
mod statuses;
