//! Tests of the top call alone.
#![tactic(auto)]

#[cfg(test)]
mod count_tests;
#[cfg(test)]
mod dir_fault_tests;
#[cfg(test)]
mod directories;
#[cfg(test)]
mod each_call_tests;
#[cfg(test)]
mod family_row_tests;
#[cfg(test)]
mod fault_tests;
#[cfg(test)]
mod flush_tests;
#[cfg(test)]
mod folder_tests;
#[cfg(test)]
mod limit_tests;
#[cfg(test)]
mod outcome_tests;
#[cfg(test)]
mod report_tests;
#[cfg(test)]
mod row_tests;
#[cfg(test)]
mod runs;
#[cfg(test)]
mod scan_tests;
#[cfg(test)]
mod short_dir;
#[cfg(test)]
mod snapshot_row_tests;
#[cfg(test)]
mod standard_tests;
#[cfg(test)]
mod words_tests;
