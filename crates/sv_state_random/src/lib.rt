//! A long run of calls of the state, drawn by a fixed rule, beside a plain and slow state.
#![tactic(auto)]

#[cfg(test)]
mod answers;
#[cfg(test)]
mod counts;
#[cfg(test)]
mod draws;
#[cfg(test)]
mod families;
#[cfg(test)]
mod outputs;
#[cfg(test)]
mod plain;
#[cfg(test)]
mod random_tests;
#[cfg(test)]
mod removals;
#[cfg(test)]
mod writes;
