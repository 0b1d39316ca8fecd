//! A lane of many sets an option of a family: under the DB lock the family gets a new SuperVersion with the option's
//! value, and the slots of all lanes are swept.
#![tactic(auto)]

mod sets;

pub use sets::set_option;
