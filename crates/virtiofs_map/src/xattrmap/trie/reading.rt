//! Reading a trie: from a row to that of its child.

ghost use Rattle.std.specs.Prelude.{◌≡◌, ◌↔◌, ◌≤◌, ◌<◌, ◌+◌, ◌*◌, false, ℕ, List, length, take, drop, IfSome, IsTrue};
ghost use Rattle.std.specs.Prelude.{MatchOption};
ghost use Rattle.virtiofs_map.specs.NodeParts.{HasBytesAt, HasRows, IsReadable, IsRootRow, IsRow, LeadsNowhere};
ghost use Rattle.virtiofs_map.specs.NodeParts.{LeadsToRow, StaysAt, StepsTo};
ghost use Rattle.virtiofs_map.specs.FirstRule.{shared};
ghost use Rattle.virtiofs_map.specs.Steps.{count_after};
ghost use Rattle.virtiofs_map.specs.declared.xattrmap.trie.node.Node.{Node};

use crate::steps::Steps;
use crate::xattrmap::trie::compare::{are_same, common_prefix_length};
use crate::xattrmap::trie::rows::{
    SPARSE, base_of, first_byte_of, is_sparse, label_of, length_of, low_byte_of, row_at, width_of,
};

/// The row of a node that answers that no rule fits, and has no children.
const BARE: [u8; 24] = [
    0, 0, 0, 0, 0, 0, 0, 0, 1, 0, 0, 0, 0, 0, 0, 0, 255, 255, 255, 255, 255, 255, 0, 0,
];

/// The rows of a map's tries, for reading: the bytes of the map. Whatever the bytes are, nothing is
/// read outside of them.
#[derive(Clone, Copy)]
pub(crate) struct Rows<'a> {
    image: &'a [u8],
}

/// A trie for reading: the rows, and where its root stands among the bytes.
#[derive(Clone, Copy)]
pub(crate) struct Trie<'a> {
    pub(crate) rows: Rows<'a>,
    root: usize,
}

impl<'a> Trie<'a> {
    /// The trie whose rows begin there.
    #[inline(always)]
    pub(crate) fn new(image: &'a [u8], root: usize) -> Trie<'a>
        ensures image { result.rows.image.now ≡ image.now }
        ensures root { result.root ≡ root }
    {
        Trie {
            rows: Rows { image },
            root,
        }
    }

    /// The row of the root, which counts as one step. Where there is none, the row of a node that
    /// answers that no rule fits.
    #[inline(always)]
    #[tactic(auto, using(crate::proofs::xattrmap::trie::reading::ChildStepLemmas::root_there))]
    pub(crate) fn root(self, steps: &mut Steps) -> &'a [u8; 24]
        ensures root { (first labels : ℕ) (nodes : List Node) → self.entry.root ≡ 8 * first
            → HasRows self.entry.rows.image.now first labels nodes → 0 < length nodes
            → IsRootRow first labels nodes result.now }
        ensures counted { steps.new ≡ count_after steps.old 1 }
    {
        steps.tick();
        if self.root > 9223372036854775807 {
            return &BARE;
        }
        match row_at(self.rows.image, self.root) {
            Some(root) => root,
            None => &BARE,
        }
    }
}

impl<'a> Rows<'a> {
    /// The row that stands so many places behind the first child.
    #[inline(always)]
    fn row(self, first: u64, behind: u8) -> Option<&'a [u8; 24]>
        requires { first < 281474976710656 }
        ensures { MatchOption result
            (length self.entry.image.now < 8 * (first + 3 * behind) + 24)
            (λ row. row.now ≡ take 24 (drop (8 * (first + 3 * behind)) self.entry.image.now)) }
    {
        row_at(self.image, 8 * (first as usize + 3 * behind as usize))
    }

    /// The child to which a byte leads, where the children stand as their bytes do.
    #[inline(always)]
    fn dense_child(self, parent: &'a [u8; 24], byte: u8) -> Option<&'a [u8; 24]>
        ensures { (first labels : ℕ) (nodes : List Node) (bytes : List ℕ) (node : Node)
            → HasRows self.entry.image.now first labels nodes
            → IsReadable nodes bytes node → IsRow first labels node parent.now
            → node.is_sparse ≡ false
            → MatchOption result
            (LeadsNowhere nodes node byte)
            (λ child. LeadsToRow first labels nodes node byte child.now) }
    {
        let behind = byte.wrapping_sub(low_byte_of(parent));
        if behind >= width_of(parent) {
            return None;
        }
        let child = self.row(base_of(parent), behind)?;
        if first_byte_of(child) == byte {
            Some(child)
        } else {
            None
        }
    }

    /// The child to which a byte leads, where the children are sparse.
    fn sparse_child(self, parent: &'a [u8; 24], byte: u8) -> Option<&'a [u8; 24]>
        ensures { (first labels : ℕ) (nodes : List Node) (bytes : List ℕ) (node : Node)
            → HasRows self.entry.image.now first labels nodes
            → IsReadable nodes bytes node → IsRow first labels node parent.now
            → MatchOption result
            (LeadsNowhere nodes node byte)
            (λ child. LeadsToRow first labels nodes node byte child.now) }
    {
        if byte == 0 {
            return None;
        }
        let (from, width) = (base_of(parent) % SPARSE, width_of(parent));
        for behind in 0..width {
            let child = self.row(from, behind)?;
            if first_byte_of(child) == byte {
                return Some(child);
            }
        }
        None
    }

    /// The child to which a byte leads.
    #[inline(always)]
    fn child(self, parent: &'a [u8; 24], byte: u8) -> Option<&'a [u8; 24]>
        ensures { (first labels : ℕ) (nodes : List Node) (bytes : List ℕ) (node : Node)
            → HasRows self.entry.image.now first labels nodes
            → IsReadable nodes bytes node → IsRow first labels node parent.now
            → MatchOption result
            (LeadsNowhere nodes node byte)
            (λ child. LeadsToRow first labels nodes node byte child.now) }
    {
        if is_sparse(parent) {
            self.sparse_child(parent, byte)
        } else {
            self.dense_child(parent, byte)
        }
    }

    /// Whether a row of bytes begins with `count` bytes of the map from a place on.
    #[inline(always)]
    fn begins(self, row: &[u8], from: usize, count: usize) -> bool
        requires from { from < 281474976710656 }
        requires count { count < 256 }
        requires long { count ≤ length row.now }
        ensures { from + count ≤ length self.entry.image.now → IsTrue result
            ↔ (take count row.now ≡ take count (drop from self.entry.image.now)) }
    {
        if from + count > self.image.len() {
            return false;
        }
        are_same(&row[..count], &self.image[from..from + count])
    }

    /// How many bytes a row of bytes shares with `count` bytes of the map from a place on.
    #[tactic(auto, using(crate::proofs::xattrmap::trie::SharedLemmas::shared_within))]
    fn shared(self, row: &[u8], from: usize, count: usize) -> u64
        requires from { from < 281474976710656 }
        requires count { count < 256 }
        ensures shared { from + count ≤ length self.entry.image.now
            → result ≡ shared (take count (drop from self.entry.image.now)) row.now }
        ensures within { result ≤ count }
    {
        if from + count > self.image.len() {
            return 0;
        }
        common_prefix_length(&self.image[from..from + count], row) as u64
    }

    /// Goes from a row to that of the child that the first byte leads to, where its label begins
    /// what follows. Gives the row of the child and what is left.
    ///
    /// Each byte that is passed counts as one step. Where the label does not fit, the bytes that it
    /// shares with the rest count if the count is to be whole.
    #[inline(always)]
    pub(crate) fn enter<'n>(
        self,
        parent: &'a [u8; 24],
        rest: &'n [u8],
        whole_count: bool,
        steps: &mut Steps,
    ) -> Option<(&'a [u8; 24], &'n [u8])>
        ensures step { (first labels : ℕ) (nodes : List Node) (bytes : List ℕ) (node : Node)
            → HasRows self.entry.image.now first labels nodes
            → HasBytesAt self.entry.image.now labels bytes
            → IsReadable nodes bytes node → IsRow first labels node parent.now
            → MatchOption result
            (StaysAt nodes bytes node rest.now whole_count steps.old steps.new)
            (λ found. StepsTo first labels nodes bytes node rest.now
            found.0.now found.1.now steps.old steps.new) }
        ensures shorter { IfSome result (λ found. length found.1.now < length rest.now) }
    {
        let (byte, after) = rest.split_first()?;
        let child = self.child(parent, *byte)?;
        let (from, count) = (label_of(child), length_of(child));
        if count > after.len() || !self.begins(after, from, count) {
            if whole_count {
                steps.count_more(self.shared(after, from, count) + 1);
            }
            return None;
        }
        steps.count_more(count as u64 + 1);
        Some((child, &after[count..]))
    }
}
