//! How a line ends without a reply.

/// A change of the tables failed from the first write of its gate on, and the session ends.
#[derive(Clone, Copy, Debug, PartialEq, Eq)]
pub enum AreaFault {
    Failed = 1,
}
