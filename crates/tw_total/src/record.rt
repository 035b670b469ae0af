//! Records of total families.
use tw_clause::{Modes, Order, Worlds};
use tw_terms::ConstId;

/// The record of a group of total families.
#[derive(Drop, Debug)]
pub struct TotalRecord {
    pub families: Vec<ConstId>,
    pub modes: Modes,
    pub worlds: Worlds,
    /// For each family of the group those below it when the record was made, the oldest first.
    pub below: Vec<(ConstId, Vec<ConstId>)>,
    /// The families that the record freezes, the oldest first.
    pub frozen: Vec<ConstId>,
    /// The group as it was declared.
    pub order: Vec<(ConstId, Order)>,
}

/// The records of a session, the oldest first.
#[derive(Drop, Debug)]
pub struct Totals {
    pub records: Vec<TotalRecord>,
}
