use gft_range::RangeSet;

/// A record of ranges that are kept for good. Marks of a transfer are numbered from 0.
#[derive(Debug, Drop)]
pub struct Mark {
    pub number: u64,
    pub ranges: RangeSet,
}
