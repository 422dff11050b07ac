ghost use Rattle.std.specs.Prelude.{◌≡◌, ℕ, List, None, Some, bytes_eq, if◌then◌else◌, OnOk, OnErr};
ghost use Rattle.sp_tree.specs.Children.{child};

use indexmap::IndexMap;
use std::alloc::{AllocError, Global};
use std::marker::Model;

/// The children of a node by a text: a level, or what stands before its `*`. A child is named by its
/// place among the nodes.
#[derive(Drop)]
pub struct Children {
    places: IndexMap<Vec<u8>, usize>,
}

impl Model for Children {
    ghost use Rattle.std.specs.Prelude.{ℕ, List, map};

    ghost Value = { List (List ℕ × ℕ) };

    ghost view = { λ c. map (λ e. (e.0.items, e.1)) c.places.entries };
}

impl Children {
    /// No children.
    pub fn new(alloc: Global) -> Children
        ensures { (text : List ℕ) → child result text ≡ None }
    {
        Children {
            places: IndexMap::new(alloc),
        }
    }

    /// The place of the child of a text. It takes no memory.
    #[tactic(auto, using(crate::proofs::Lookups::seen))]
    pub fn get(&self, text: &[u8]) -> Option<usize>
        ensures { result ≡ child self.now text.now }
    {
        self.places.get(text).copied()
    }

    /// Names the child of a text. Without memory the children stay as they were.
    pub fn set(&mut self, alloc: Global, text: &[u8], place: usize) -> Result<(), AllocError>
        ensures ok { OnOk result ((other : List ℕ) → child self.new other
            ≡ if bytes_eq text.now other then Some place else child self.old other) }
        ensures err { OnErr result ((other : List ℕ) → child self.new other ≡ child self.old other) }
    {
        let key = Vec::from_slice(alloc, text)?;
        self.places.insert(key, place)?;
        Ok(())
    }
}
