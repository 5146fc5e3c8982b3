//! Tests of scenarios and their texts, and of runs, sessions and the driven stack, through public items.
#![tactic(auto)]

#[cfg(test)]
mod asserting;
#[cfg(test)]
mod checks;
#[cfg(test)]
mod equal_scripts;
#[cfg(test)]
mod fixtures;
#[cfg(test)]
mod forms;
#[cfg(test)]
mod reading;
#[cfg(test)]
mod reports;
#[cfg(test)]
mod runs;
#[cfg(test)]
mod second;
#[cfg(test)]
mod sessions;
#[cfg(test)]
mod stack;
