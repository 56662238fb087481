//! Where the bytes of an index break a rule.

/// The first place in the bytes of an index that breaks a rule.
#[derive(Clone, Copy, Debug, PartialEq, Eq)]
pub struct IndexFault {
    /// The layer, the bottom one at 0. `None` stands for the list of the layers' ends.
    pub layer: Option<usize>,
    /// The byte of the index at which the run begins that breaks a rule. It is 0 for the list of the layers' ends.
    pub byte: usize,
}

impl IndexFault {
    /// The list of the layers' ends.
    pub(crate) const OF_LIST: IndexFault = IndexFault {
        layer: None,
        byte: 0,
    };
}
