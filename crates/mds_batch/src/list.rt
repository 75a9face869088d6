//! The items of a batch, read from a text's tokens.
ghost use Rattle.std.specs.Prelude.{◌≡◌, ◌∷◌, ◌++◌, ◌<◌, [], List, false, Some, None, IfOk, OnOk, Err};
ghost use Rattle.serde_json.specs.Data.{Data};
ghost use Rattle.mds_batch.specs.Reading.{value_at};
ghost use Rattle.mds_batch.specs.Batch.{max_items};
ghost use Rattle.mds_batch.specs.Listed.{HoldsItems, IsListOf};
ghost use Rattle.mds_batch.specs.declared.tokens.ReadFault.TheVariants.{NotJson as not_json};

use crate::MAX_ITEMS;
use crate::taker::TakesItems;
use crate::tokens::{
    Fields, Head, ReadFault, Sequence, Tokens, begin, pass, pass_items, read_items, read_members,
};
use std::alloc::AllocError;

/// What the members of an item of a batch fill.
pub(crate) trait ItemFields: Fields {
    ghost use Rattle.std.specs.Prelude.{◌≡◌, None};
    ghost use Rattle.serde_json.specs.Data.{Data, Members, no_members, object};
    ghost use Rattle.serde_json.specs.Find.{as_object};

    /// What an item is: what its members say, or what is wrong with it.
    type Item: Copy;

    /// A value of a batch is this item.
    ghost is_item: { Data → Self.Item → Type 0 };

    /// No member so far.
    fn new() -> Self
        ensures { Self.holds no_members result };

    /// Leaves no member.
    fn clear(&mut self)
        ensures { Self.holds no_members self.new };

    /// Makes the item that the members make, in the place of another one.
    fn fill(&self, item: &mut Self::Item)
        requires { (found : Members) × Self.holds found self.now }
        ensures { (found : Members) → Self.holds found self.now → is_item (object found) item.new };

    /// The item that a value is which is no object.
    fn no_object() -> Self::Item
        ensures { (value : Data) → as_object value ≡ None → is_item value result };
}

pub(crate) fn read_item<F: ItemFields>(
    fields: &mut F,
    item: &mut F::Item,
    tokens: &mut Tokens<'_>,
    depth: usize,
) -> Result<(), ReadFault>
    ensures item { OnOk result ((value : Data)
        × (value_at depth tokens.old ≡ Some (value, tokens.new)) × F.is_item value item.new) }
    ensures fault { result ≡ Err not_json → value_at depth tokens.old ≡ None }
{
    match begin(tokens, depth)? {
        Head::Object => {
            fields.clear();
            read_members(fields, tokens, depth - 1)?;
            fields.fill(item);
        }
        Head::Array => {
            pass_items(tokens, depth - 1)?;
            *item = F::no_object();
        }
        _ => *item = F::no_object(),
    }
    Ok(())
}

/// The items of a batch that were read. Each is made in one place, and handed from there to a taker.
#[derive(Drop)]
pub(crate) struct ItemList<F: ItemFields + Drop> {
    fields: F,
    item: F::Item,
    count: usize,
    is_too_long: bool,
}

impl<F: ItemFields + Drop> ItemList<F> {
    pub(crate) fn new() -> ItemList<F>
        ensures none { result.count ≡ 0 }
        ensures short { result.is_too_long ≡ false }
    {
        ItemList {
            fields: F::new(),
            item: F::no_object(),
            count: 0,
            is_too_long: false,
        }
    }

    /// Leaves no items, for another text.
    pub(crate) fn restart(&mut self)
        ensures none { self.new.count ≡ 0 }
        ensures short { self.new.is_too_long ≡ false }
    {
        self.count = 0;
        self.is_too_long = false;
    }

    /// Reads what the next value lists, into a list without items, and hands the items to a taker: the items of a list,
    /// or an object alone. Answers whether it is one of both.
    pub(crate) fn read<T: TakesItems<Item = F::Item>>(
        &mut self,
        taker: &mut T,
        tokens: &mut Tokens<'_>,
        depth: usize,
    ) -> Result<bool, ReadFault>
        requires none { self.old.count ≡ 0 }
        requires short { self.old.is_too_long ≡ false }
        requires took { T.took taker.old [] taker.old }
        ensures list { IfOk result (λ is_list. (value : Data)
            × (value_at depth tokens.old ≡ Some (value, tokens.new))
            × IsListOf F.is_item (λ items. T.took taker.old items taker.new)
            value self.new.count self.new.is_too_long is_list) }
        ensures fault { result ≡ Err not_json → value_at depth tokens.old ≡ None }
    {
        match begin(tokens, depth)? {
            Head::Array => {
                read_items(self, taker, tokens, depth - 1)?;
                Ok(true)
            }
            Head::Object => {
                self.fields.clear();
                read_members(&mut self.fields, tokens, depth - 1)?;
                self.fields.fill(&mut self.item);
                self.hand_on(taker)?;
                Ok(true)
            }
            _ => Ok(false),
        }
    }

    fn hand_on<T: TakesItems<Item = F::Item>>(&mut self, taker: &mut T) -> Result<(), AllocError>
        requires { self.old.count < max_items }
        ensures { OnOk result ((before : T) (values : List Data) (value : Data)
            → HoldsItems F.is_item (λ items. T.took before items taker.old)
            values self.old.count self.old.is_too_long
            → F.is_item value self.old.item
            → HoldsItems F.is_item (λ items. T.took before items taker.new)
            (values ++ value ∷ []) self.new.count self.new.is_too_long) }
    {
        taker.take(&self.item)?;
        self.count += 1;
        Ok(())
    }

    pub(crate) fn is_too_long(&self) -> bool
        ensures { result ≡ self.now.is_too_long }
    {
        self.is_too_long
    }
}

impl<F: ItemFields + Drop, T: TakesItems<Item = F::Item>> Sequence<T> for ItemList<F> {
    ghost use Rattle.mds_batch.specs.Listed.{HoldsItems};

    ghost holds = { λ before values list taker. HoldsItems F.is_item
        (λ items. T.took before items taker) values list.count list.is_too_long };

    fn take(
        &mut self,
        taker: &mut T,
        tokens: &mut Tokens<'_>,
        depth: usize,
    ) -> Result<(), ReadFault> {
        if self.count >= MAX_ITEMS {
            pass(tokens, depth)?;
            self.is_too_long = true;
            return Ok(());
        }
        read_item(&mut self.fields, &mut self.item, tokens, depth)?;
        self.hand_on(taker)?;
        Ok(())
    }
}
