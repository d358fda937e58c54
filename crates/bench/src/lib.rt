// Exports for the programs of bench/.
#![tactic(auto)]

mod checksums;
mod copies;
mod digests;
mod histories;
mod share_rules;
