//! The types of an event, read from a list.
ghost use Rattle.std.specs.Prelude.{◌≡◌, List, [], Some, None, IfOk, Err, option_map, cond};
ghost use Rattle.serde_json.specs.Data.{Data};
ghost use Rattle.mds_batch.specs.Reading.{value_at, Reads};
ghost use Rattle.mds_batch.specs.Forms.{few_types, types_in};
ghost use Rattle.mds_batch.specs.Filled.{HoldsTypes};
ghost use Rattle.mds_batch.specs.declared.tokens.ReadFault.TheVariants.{NotJson as not_json};

use crate::form::read_type_name;
use crate::tokens::{Head, ReadFault, Sequence, Tokens, begin, pass_members, read_items};
use arrayvec::ArrayVec;
use mds_core::MAX_EVENT_TYPES;
use mds_table::TypeName;

/// The types of an event: as many names as there is room for, if each item so far was one.
#[derive(Drop)]
pub(crate) struct TypeList {
    names: ArrayVec<TypeName, MAX_EVENT_TYPES>,
    is_whole: bool,
}

impl TypeList {
    pub(crate) fn new() -> TypeList
        ensures { HoldsTypes [] result }
    {
        TypeList {
            names: ArrayVec::new(),
            is_whole: true,
        }
    }

    fn clear(&mut self)
        ensures { HoldsTypes [] self.new }
    {
        self.names.clear();
        self.is_whole = true;
    }

    fn are_few(&self) -> bool
        ensures { (items : List Data) → HoldsTypes items self.now
            → few_types items ≡ cond result (Some self.now.names.items) None }
    {
        self.is_whole && !self.names.is_empty()
    }

    pub(crate) fn names(&self) -> &[TypeName]
        ensures { result.now ≡ self.now.names.items }
    {
        self.names.as_slice()
    }
}

/// It keeps the names itself, and hands nothing on.
impl Sequence<()> for TypeList {
    ghost use Rattle.mds_batch.specs.Filled.{HoldsTypes};

    ghost holds = { λ _ items types _. HoldsTypes items types };

    fn take(
        &mut self,
        _taker: &mut (),
        tokens: &mut Tokens<'_>,
        depth: usize,
    ) -> Result<(), ReadFault> {
        match read_type_name(tokens, depth)? {
            Some(name) if self.is_whole && self.names.len() < MAX_EVENT_TYPES => {
                self.names.push(name);
            }
            _ => self.is_whole = false,
        }
        Ok(())
    }
}

pub(crate) fn read_types(
    types: &mut TypeList,
    tokens: &mut Tokens<'_>,
    depth: usize,
) -> Result<Option<()>, ReadFault>
    ensures read { IfOk result (λ there. Reads types_in depth tokens.old tokens.new
        (option_map (λ _. types.new.names.items) there)) }
    ensures fault { result ≡ Err not_json → value_at depth tokens.old ≡ None }
{
    match begin(tokens, depth)? {
        Head::Array => {
            types.clear();
            read_items(types, &mut (), tokens, depth - 1)?;
            Ok(types.are_few().then_some(()))
        }
        Head::Object => {
            pass_members(tokens, depth - 1)?;
            Ok(None)
        }
        _ => Ok(None),
    }
}
