//! What takes the items of a batch, as they are read.
use std::alloc::AllocError;

/// What takes the items of a batch, item by item, as they are read.
pub trait TakesItems {
    ghost use Rattle.std.specs.Prelude.{◌∷◌, ◌++◌, ◌<◌, [], List, length, OnOk, OnErr};
    ghost use Rattle.mds_batch.specs.Batch.{max_items};

    /// The items that it takes.
    type Item;

    /// The second taker is what the first one is once it took these items, in their order.
    ghost took: { Self → List Self.Item → Self → Type 0 };

    /// Takes the next item. Before it there are fewer than [`MAX_ITEMS`](crate::MAX_ITEMS).
    ///
    /// # Errors
    ///
    /// [`AllocError`] where there is no memory for it. It has then taken the items before it, and no other.
    fn take(&mut self, item: &Self::Item) -> Result<(), AllocError>
        ensures taken { OnOk result ((before : Self) (items : List Self.Item)
            → took before items self.old → length items < max_items
            → took before (items ++ item.now ∷ []) self.new) }
        ensures kept { OnErr result ((before : Self) (items : List Self.Item)
            → took before items self.old → took before items self.new) };
}

/// It takes each item behind those that it has.
impl<A: Copy> TakesItems for Vec<A> {
    ghost use Rattle.std.specs.Prelude.{◌≡◌, ◌++◌};

    type Item = A;

    ghost took = { λ before items now. now.items ≡ before.items ++ items };

    fn take(&mut self, item: &A) -> Result<(), AllocError> {
        Ok(self.push(*item)?)
    }
}
