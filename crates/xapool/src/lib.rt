// The exports of the library, a file for each family: an archive has those of one crate.
#![tactic(auto)]

mod gates;
mod names;
mod plain;
mod pool;
mod regions;
mod scripts;
mod sheets;
