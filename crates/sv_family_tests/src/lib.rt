//! Tests of the families and their handles.
#![tactic(auto)]

#[cfg(test)]
mod calls;
#[cfg(test)]
mod option_tests;
#[cfg(test)]
mod tests;
