//! Takings and givings of locks keep the rule of the table.
#![tactic(auto)]
