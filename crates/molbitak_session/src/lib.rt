// The boundary's state files and sessions.
#![tactic(auto)]

pub mod file;
pub mod run;
