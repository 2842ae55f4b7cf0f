//! The perfect subtrees of a list of leaves, as a saved state contains them.
ghost use Rattle.std.specs.Prelude.{◌≡◌, ◌+◌, ◌<◌, ◌^◌, ℕ, List, [], ◌∷◌, ◌++◌, length, map, OnOk, OnErr, IfOk};
ghost use Rattle.ct_tree.specs.Tree.{hash_leaf, mth};
ghost use Rattle.ct_tree.specs.Stack.{Stands};

use ct_tree::{NodeHash, leaf_hash, root_of_subtrees, with_leaf};
use std::alloc::{AllocError, Allocator, Global};
use std::marker::Model;

/// A number of leaves, and the roots of their perfect subtrees, largest first: at most 64 hashes. A caller may pass in any number and any
/// hashes, so nothing is known about them by themselves: each contract speaks of every list of leaf hashes that they represent.
/// (`ct_tree`'s `Stack` always represents some list, and so cannot be made from a saved state.)
#[derive(Drop)]
pub struct Peaks<A: Allocator = Global> {
    size: u64,
    subtrees: Vec<[u8; 32], A>,
}

impl<A: Allocator> Model for Peaks<A> {
    ghost Value = { ℕ × List (List ℕ) };

    ghost view = { λ p. (p.size, p.subtrees.items) };
}

impl<A: Allocator> Peaks<A> {
    /// The number and roots that are passed in. Later growth takes memory from the allocator of `subtrees`.
    pub fn from_parts(size: u64, subtrees: Vec<[u8; 32], A>) -> Peaks<A>
        ensures { result ≡ (size, subtrees.items) }
    {
        Peaks { size, subtrees }
    }

    /// The number of leaves.
    pub fn size(&self) -> u64
        ensures { result ≡ self.now.0 }
    {
        self.size
    }

    /// The subtrees' roots, largest first.
    pub fn subtrees(&self) -> &[[u8; 32]]
        ensures { result.now ≡ self.now.1 }
    {
        &self.subtrees
    }

    /// Appends a leaf hash. It hashes as many nodes as the number of leaves before the push has trailing ones in binary, so fewer than one
    /// per push on average. If memory runs out, nothing changes.
    pub fn push<H: NodeHash>(&mut self, h: &H, leaf_hash: &[u8; 32]) -> Result<(), AllocError>
        ensures ok { OnOk result ((D : List (List ℕ)) → length D + 1 < 2 ^ 64 → Stands H.digest self.old D
            → Stands H.digest self.new (D ++ leaf_hash.now ∷ [])) }
        ensures err { OnErr result (self.new ≡ self.old) }
    {
        let (kept, root) = with_leaf(h, &self.subtrees, self.size, leaf_hash);
        if kept == self.subtrees.len() {
            self.subtrees.push(root)?;
        } else {
            self.subtrees[kept] = root;
            self.subtrees.truncate(kept + 1);
        }
        self.size = self.size.wrapping_add(1);
        Ok(())
    }

    /// Appends the hashes of leaves, in order. If memory runs out, some of them may have been appended.
    pub fn push_leaves<H: NodeHash, L: Allocator>(
        &mut self,
        h: &H,
        leaves: &[Vec<u8, L>],
    ) -> Result<(), AllocError>
        ensures { OnOk result ((D : List (List ℕ)) → length D + length leaves.now < 2 ^ 64 → Stands H.digest self.old D
            → Stands H.digest self.new (D ++ map (hash_leaf H.digest) (map (λ l. l.items) leaves.now))) }
    {
        for leaf in leaves {
            let hash = leaf_hash(h, leaf);
            self.push(h, &hash)?;
        }
        Ok(())
    }

    /// The root of the leaves (MTH of RFC 6962, section 2.1). It takes no memory, and hashes one node fewer than there are subtrees.
    pub fn root<H: NodeHash>(&self, h: &H) -> [u8; 32]
        ensures { (D : List (List ℕ)) → Stands H.digest self.now D → result ≡ mth H.digest D }
    {
        root_of_subtrees(h, &self.subtrees)
    }
}

impl<A: Allocator + Clone> Peaks<A> {
    /// An equal copy. It takes memory once.
    pub fn copied(&self) -> Result<Peaks<A>, AllocError>
        ensures { IfOk result (λ p. p ≡ self.now) }
    {
        let alloc = self.subtrees.allocator().clone()?;
        let mut subtrees = Vec::with_capacity(alloc, self.subtrees.len())?;
        subtrees.extend_from_slice(&self.subtrees)?;
        Ok(Peaks {
            size: self.size,
            subtrees,
        })
    }
}
