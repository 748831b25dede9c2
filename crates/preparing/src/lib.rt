// What preparing a changing command means (P11): definitions and laws alone; the code is in crate prepare.
#![tactic(auto)]
