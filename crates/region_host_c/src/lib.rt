// The static library for a host in C: each export has the name and the clauses of the call of `region_host` that it makes, and does
// nothing else. The types are those that C has: numbers for kinds and flags, lists one by one.
#![tactic(auto)]

mod changes;
mod conversions;
mod interface;
mod queries;
mod reading;
mod sheet;
