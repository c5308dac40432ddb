//! Why nothing was recorded.

use crate::marks::Mark;
use lt_lp::Cone;
use lt_triang::Triangulation;

/// The position isn't open: the mark that stands there.
#[derive(Drop)]
pub struct Already {
    pub mark: Mark,
}

/// Why no entry was recorded.
#[derive(Drop)]
pub enum Why {
    Already { mark: Mark },
    Again { entries: u32 },
    Memory,
}

/// Why a mark was not recorded.
#[derive(Drop)]
pub enum Missed {
    Already { mark: Mark },
    Again { entries: u32 },
}

/// An entry handed back.
#[derive(Drop)]
pub struct Back {
    pub why: Why,
    pub triangulation: Triangulation,
    pub cone: Cone,
}
