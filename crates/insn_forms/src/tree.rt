//! Trees that lead a word to the one line that it may match, by a few of its bits at a time.
ghost use Rattle.std.specs.Prelude.{◌≡◌, slice_get};
ghost use Rattle.insn_forms.specs.Tree.{walk, walk_from, way_on};

/// A way for each number that a word may have in the bits of the mask, from the bit `low` on (below 32): to
/// the node as far after `first` as the number.
#[derive(Clone, Copy)]
pub struct Fork {
    pub low: u8,
    pub mask: u8,
    pub first: u16,
}

/// A node of a tree.
#[derive(Clone, Copy)]
pub enum Node {
    Fork(Fork),
    /// Only the line of this number may match.
    Leaf(u16),
}

/// The number of the one line that may match the word, by the root, the nodes and as many steps as the
/// longest way from the root has nodes.
#[inline(always)]
pub fn line_number(root: Fork, nodes: &[Node], steps: u32, word: u32) -> Option<usize>
    ensures { result ≡ walk_from steps nodes.now root word }
{
    follow(nodes, way_on(root, word), steps, word)
}

/// Where the way from a node ends.
#[inline(always)]
fn follow(nodes: &[Node], start: usize, steps: u32, word: u32) -> Option<usize>
    ensures { result ≡ walk steps nodes.now start word }
{
    let mut at = start;
    'steps: for _step in 0..steps {
        match node_at(nodes, at) {
            Some(Node::Fork(fork)) => at = way_on(fork, word),
            Some(Node::Leaf(number)) => return Some(number as usize),
            None => return None,
        }
    }
    None
}

/// The place of the node to which the word's way leads.
#[inline(always)]
#[tactic(auto, unfolding(crate::specs::Tree::way_on))]
fn way_on(fork: Fork, word: u32) -> usize
    ensures { result ≡ way_on fork word }
{
    let bits = word >> u32::from(fork.low % 32) & u32::from(fork.mask);
    usize::from(fork.first) + bits as usize
}

/// What stands at a place of the tree.
#[inline(always)]
fn node_at(nodes: &[Node], at: usize) -> Option<Node>
    ensures { result ≡ slice_get nodes.now at }
{
    if at < nodes.len() {
        Some(nodes[at])
    } else {
        None
    }
}

/// An array of nodes: a leaf by its number, and a fork as `(low mask first)`.
#[macro_export]
macro_rules! nodes {
    (@ ($low:literal $mask:literal $first:literal)) => {
        $crate::Node::Fork($crate::Fork { low: $low, mask: $mask, first: $first })
    };
    (@ $number:literal) => { $crate::Node::Leaf($number) };
    ($($node:tt)*) => { [$($crate::nodes!(@ $node)),*] };
}
