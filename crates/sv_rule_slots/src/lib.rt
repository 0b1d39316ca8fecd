//! The steps on slots, numbers, references and the round keep the rule of the table.
#![tactic(auto)]
