//! The hashed string of an inner node.
ghost use Rattle.std.specs.Prelude.{◌≡◌, ◌↔◌, ℕ, List, length, IsTrue};
ghost use Rattle.ct_verify.specs.Strings.{children_string};

use ct_tree::is_same_digest;

// The two child hashes that are joined in an inner node.
#[derive(Clone, Copy)]
pub(crate) struct Children {
    pub(crate) left: [u8; 32],
    pub(crate) right: [u8; 32],
}

pub(crate) fn under_node(left: [u8; 32], right: [u8; 32]) -> Children
    ensures left { result.left ≡ left }
    ensures right { result.right ≡ right }
{
    Children { left, right }
}

// Reports whether two digests are equal.
pub(crate) fn is_same(a: &[u8; 32], b: &[u8; 32]) -> bool
    ensures same { IsTrue result ↔ (a.now ≡ b.now) }
    ensures first { length a.now ≡ 32 }
    ensures second { length b.now ≡ 32 }
{
    is_same_digest(a, b)
}

// Reports whether two nodes hash one string.
pub(crate) fn is_same_string(a: &Children, b: &Children) -> bool
    ensures strings { IsTrue result ↔ (children_string a.now ≡ children_string b.now) }
    ensures parts { IsTrue result → (a.now.left ≡ b.now.left) × (a.now.right ≡ b.now.right) }
{
    let left = is_same(&a.left, &b.left);
    let right = is_same(&a.right, &b.right);
    left && right
}
