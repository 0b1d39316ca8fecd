//! The table at the opening keeps the rule, seats that are made and joined keep it, and what the last seat finds.
#![tactic(auto)]
