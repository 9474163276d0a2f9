// A page of an instance.

/// A page of the instance at a place.
#[derive(Clone, Copy, Debug, PartialEq, Eq)]
pub struct PageId {
    /// The place.
    pub place: u32,
    /// The number of the page, from 0 on.
    pub page: u32,
}
