//! Tests of the base that the layers stand on, through its public items, with ample memory.
#![tactic(auto)]

#[cfg(test)]
mod asserting;
#[cfg(test)]
mod bodies;
#[cfg(test)]
mod ends;
#[cfg(test)]
mod headers;
#[cfg(test)]
mod layers;
#[cfg(test)]
mod life;
#[cfg(test)]
mod lists;
#[cfg(test)]
mod messages;
#[cfg(test)]
mod texts;
#[cfg(test)]
mod values;
