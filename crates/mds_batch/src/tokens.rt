//! The tokens of a text of JSON, as the kit's `json` hands them out, read into values as `serde_json` reads them.
ghost use Rattle.std.specs.Prelude.{◌≡◌, [], false, Some, None, IfOk, IfErr, OnOk, Err};
ghost use Rattle.serde_json.specs.Read.{read};
ghost use Rattle.mds_batch.specs.Listed.{IsListOf};
ghost use Rattle.serde_json.specs.Data.{Data, Items, Members, no_members};
ghost use Rattle.mds_table.specs.Json.{items_in};
ghost use Rattle.mds_batch.specs.Reading.{value_at, items_at, members_at, IsHeadOf, HasBegun};
ghost use Rattle.mds_batch.specs.declared.tokens.ReadFault.TheVariants.{NotJson as not_json};

use crate::list::{ItemFields, ItemList, read_item};
use crate::number::number_of;
use crate::taker::TakesItems;
use json::{Invalid, Reader, Scratch, Token};
use serde_json::Number;
use std::alloc::AllocError;

/// How deep lists and objects nest, as `serde_json` has it.
const MAX_DEPTH: usize = 127;

/// The tokens of a text that are still to come.
pub(crate) type Tokens<'a> = Reader<'a>;

/// Why reading ended before the text did. Nothing is told then of the tokens that are left, nor of what was filled.
#[derive(Clone, Copy, Debug, PartialEq, Eq)]
pub(crate) enum ReadFault {
    /// There was no memory. This says nothing of the text.
    Memory,
    /// The text is no JSON, or it nests too deep.
    NotJson,
}

impl From<AllocError> for ReadFault {
    ghost use Rattle.mds_batch.specs.declared.tokens.ReadFault.TheVariants.{Memory};

    ghost from_gives = { λ _ fault. fault ≡ Memory };

    fn from(_refused: AllocError) -> ReadFault {
        ReadFault::Memory
    }
}

impl From<Invalid> for ReadFault {
    ghost use Rattle.mds_batch.specs.declared.tokens.ReadFault.TheVariants.{NotJson};

    ghost from_gives = { λ _ fault. fault ≡ NotJson };

    fn from(_invalid: Invalid) -> ReadFault {
        ReadFault::NotJson
    }
}

/// What a value is, where it is neither a list nor an object, and else its kind.
#[derive(Clone, Copy, Drop)]
pub(crate) enum Head<'a> {
    Null,
    Bool,
    Number(Number),
    Text(&'a str),
    Array,
    Object,
}

/// Takes the first token of a value. Behind [`Head::Array`] and [`Head::Object`] the items or the members are next, and
/// each of them nests one level less.
pub(crate) fn begin<'a>(tokens: &mut Tokens<'a>, depth: usize) -> Result<Head<'a>, ReadFault>
    ensures begun { IfOk result (λ head. HasBegun depth tokens.old head tokens.new) }
    ensures fault { IfErr result
        (λ fault. (fault ≡ not_json) × (value_at depth tokens.old ≡ None)) }
{
    match tokens.next().ok_or(ReadFault::NotJson)? {
        Token::Null => Ok(Head::Null),
        Token::Bool(_) => Ok(Head::Bool),
        Token::Number(text) => Ok(Head::Number(number_of(text).ok_or(ReadFault::NotJson)?)),
        Token::String(text) => Ok(Head::Text(text)),
        Token::BeginArray => if depth == 0 {
            Err(ReadFault::NotJson)
        } else {
            Ok(Head::Array)
        },
        Token::BeginObject => if depth == 0 {
            Err(ReadFault::NotJson)
        } else {
            Ok(Head::Object)
        },
        Token::EndArray | Token::EndObject | Token::Key(_) | Token::Bad => Err(ReadFault::NotJson),
    }
}

#[cycle(pass)]
#[inline(always)]
pub(crate) fn pass<'a>(tokens: &mut Tokens<'a>, depth: usize) -> Result<Head<'a>, ReadFault>
    ensures head { IfOk result (λ head. (value : Data)
        × (value_at depth tokens.old ≡ Some (value, tokens.new)) × IsHeadOf value head) }
    ensures fault { IfErr result
        (λ fault. (fault ≡ not_json) × (value_at depth tokens.old ≡ None)) }
{
    let head = begin(tokens, depth)?;
    match head {
        Head::Array => pass_items(tokens, depth - 1)?,
        Head::Object => pass_members(tokens, depth - 1)?,
        _ => {}
    }
    Ok(head)
}

#[cycle(pass)]
#[inline(never)]
pub(crate) fn pass_items(tokens: &mut Tokens<'_>, depth: usize) -> Result<(), ReadFault>
    ensures items { OnOk result ((items : Items)
        × (items_at depth tokens.old ≡ Some (items, tokens.new))) }
    ensures fault { IfErr result
        (λ fault. (fault ≡ not_json) × (items_at depth tokens.old ≡ None)) }
{
    while !tokens.take_end_array() {
        pass(tokens, depth)?;
    }
    Ok(())
}

#[cycle(pass)]
#[inline(never)]
pub(crate) fn pass_members(tokens: &mut Tokens<'_>, depth: usize) -> Result<(), ReadFault>
    ensures members { OnOk result ((members : Members)
        × (members_at depth tokens.old ≡ Some (members, tokens.new))) }
    ensures fault { IfErr result
        (λ fault. (fault ≡ not_json) × (members_at depth tokens.old ≡ None)) }
{
    while let Some(_) = tokens.next_key()? {
        pass(tokens, depth)?;
    }
    Ok(())
}

/// What the members of an object fill, one by one.
pub(crate) trait Fields {
    ghost use Rattle.std.specs.Prelude.{◌≡◌, Some, None, OnOk, Err};
    ghost use Rattle.serde_json.specs.Data.{Data, Members, put};
    ghost use Rattle.mds_batch.specs.Reading.{value_at};
    ghost use Rattle.mds_batch.specs.declared.tokens.ReadFault.TheVariants.{NotJson as not_json};

    /// These are the members that filled it.
    ghost holds: { Members → Self → Type 0 };

    /// Takes in the member of this name, whose value is next. A later member of the same name stands in its place.
    fn take(&mut self, name: &str, tokens: &mut Tokens<'_>, depth: usize) -> Result<(), ReadFault>
        ensures taken { OnOk result ((value : Data)
            × (value_at depth tokens.old ≡ Some (value, tokens.new))
            × ((found : Members) → holds found self.old
            → holds (put name.now value found) self.new)) }
        ensures fault { result ≡ Err not_json → value_at depth tokens.old ≡ None };
}

pub(crate) fn read_members<F: Fields>(
    fields: &mut F,
    tokens: &mut Tokens<'_>,
    depth: usize,
) -> Result<(), ReadFault>
    requires { F.holds no_members fields.old }
    ensures members { OnOk result ((found : Members)
        × (members_at depth tokens.old ≡ Some (found, tokens.new)) × F.holds found fields.new) }
    ensures fault { result ≡ Err not_json → members_at depth tokens.old ≡ None }
{
    while let Some(name) = tokens.next_key()? {
        fields.take(name, tokens, depth)?;
    }
    Ok(())
}

/// What the items of a list fill, one by one, where a taker may be handed what they are.
pub(crate) trait Sequence<T> {
    ghost use Rattle.std.specs.Prelude.{◌≡◌, ◌∷◌, ◌++◌, [], List, Some, None, OnOk, Err};
    ghost use Rattle.serde_json.specs.Data.{Data};
    ghost use Rattle.mds_batch.specs.Reading.{value_at};
    ghost use Rattle.mds_batch.specs.declared.tokens.ReadFault.TheVariants.{NotJson as not_json};

    /// These are the items that filled it; the second taker is what they made of the first one.
    ghost holds: { T → List Data → Self → T → Type 0 };

    /// Takes in the item that is next.
    fn take(
        &mut self,
        taker: &mut T,
        tokens: &mut Tokens<'_>,
        depth: usize,
    ) -> Result<(), ReadFault>
        ensures taken { OnOk result ((value : Data)
            × (value_at depth tokens.old ≡ Some (value, tokens.new))
            × ((before : T) (found : List Data) → holds before found self.old taker.old
            → holds before (found ++ value ∷ []) self.new taker.new)) }
        ensures fault { result ≡ Err not_json → value_at depth tokens.old ≡ None };
}

pub(crate) fn read_items<T, S: Sequence<T>>(
    sequence: &mut S,
    taker: &mut T,
    tokens: &mut Tokens<'_>,
    depth: usize,
) -> Result<(), ReadFault>
    requires { S.holds taker.old [] sequence.old taker.old }
    ensures items { OnOk result ((items : Items)
        × (items_at depth tokens.old ≡ Some (items, tokens.new))
        × S.holds taker.old (items_in items) sequence.new taker.new) }
    ensures fault { result ≡ Err not_json → items_at depth tokens.old ≡ None }
{
    while !tokens.take_end_array() {
        sequence.take(taker, tokens, depth)?;
    }
    Ok(())
}

/// Reads what a whole text lists, into a list without items, and hands the items to a taker. Answers whether it is a
/// list or an object.
pub(crate) fn read_text<F: ItemFields + Drop, T: TakesItems<Item = F::Item>>(
    text: &str,
    scratch: &mut Scratch,
    list: &mut ItemList<F>,
    taker: &mut T,
) -> Result<bool, ReadFault>
    requires none { list.old.count ≡ 0 }
    requires short { list.old.is_too_long ≡ false }
    requires took { T.took taker.old [] taker.old }
    ensures list { IfOk result (λ is_list. (value : Data) × (read text.now ≡ Some value)
        × IsListOf F.is_item (λ items. T.took taker.old items taker.new)
        value list.new.count list.new.is_too_long is_list) }
    ensures fault { result ≡ Err not_json → read text.now ≡ None }
{
    let mut tokens = Reader::new(text, scratch)?;
    let is_list = list.read(taker, &mut tokens, MAX_DEPTH)?;
    if tokens.next().is_some() {
        return Err(ReadFault::NotJson);
    }
    Ok(is_list)
}

pub(crate) fn read_whole<F: ItemFields>(
    text: &str,
    scratch: &mut Scratch,
    fields: &mut F,
    item: &mut F::Item,
) -> Result<(), ReadFault>
    ensures item { OnOk result ((value : Data) × (read text.now ≡ Some value)
        × F.is_item value item.new) }
    ensures fault { result ≡ Err not_json → read text.now ≡ None }
{
    let mut tokens = Reader::new(text, scratch)?;
    read_item(fields, item, &mut tokens, MAX_DEPTH)?;
    if tokens.next().is_some() {
        return Err(ReadFault::NotJson);
    }
    Ok(())
}
