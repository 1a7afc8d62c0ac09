//! Dimensions: whole numbers of scaled points, read from decimals and printed in decimals as TeX does.
#![tactic(auto)]

pub mod printing;
pub mod promises;
pub mod reading;

/// The scaled points in one point.
pub const POINT: u32 = 65_536;
