// The profile check: document 01, refusal 40. Its definitions are in specs/.

#![tactic(auto)]

pub mod features;
pub mod profile;
