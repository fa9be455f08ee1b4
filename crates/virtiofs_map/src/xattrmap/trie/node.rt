//! The nodes of a trie: pieces of patterns, each with a label.

/// A node of a trie. A byte leads to it from its parent, and then a label, which is a part of the
/// patterns' own bytes.
#[derive(Clone, Copy)]
pub(crate) struct Node {
    /// The answer of the names that end here or leave the trie here: four times the place of the
    /// first rule that fits them and the number of its type, or `NO_ANSWER`.
    pub(crate) answer: u64,
    /// Where the label begins among the bytes of the patterns.
    pub(crate) label: usize,
    /// How many bytes the label has.
    pub(crate) length: u8,
    /// The index of the first child among the nodes.
    pub(crate) base: usize,
    /// How many places the children have, with the holes between them.
    pub(crate) width: usize,
    /// The lowest byte that leads to a child, where the children are not sparse.
    pub(crate) low_byte: u8,
    /// The byte that leads here; 0 for the root and for a hole.
    pub(crate) first_byte: u8,
    /// Whether the children stand side by side, however far their bytes are apart, and are to be
    /// searched. Else the child of a byte stands as far behind the first place as the byte behind
    /// the lowest one.
    pub(crate) is_sparse: bool,
}

/// The answer that stands for no rule.
pub(crate) const NO_ANSWER: u64 = 281474976710655;
