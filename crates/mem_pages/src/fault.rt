// Why an access gives nothing.

/// Why an access of pages gives nothing: an address lies in no region; all do, and one lies in a region that can't be written; or
/// memory is wanting.
#[derive(Clone, Copy, Debug, PartialEq, Eq)]
pub enum PageFault {
    NotMapped,
    NotWritable,
    Memory,
}
