//! JSON values that borrow their text, as the data that they are.

ghost use Rattle.std.specs.Prelude.{◌≡◌, [], true, is_some, unwrap_or, option_map, IfOk};
ghost use Rattle.json.specs.Value.{value_view, items_view};
ghost use Rattle.serde_json.specs.Find.{get, as_str};
ghost use Rattle.serde_json.specs.Read.{of_json};
ghost use Rattle.conda_record.specs.Json.{number_of, texts_of};
ghost use Rattle.conda_record.specs.Tree.{data_of, tree_texts};

use crate::data::{is_data, number};
use json::Value;
use mp_codec::Text;
use std::alloc::{AllocError, Global};

// A value whose numbers are all in range. Contracts see the data that it is.
#[derive(Clone, Copy)]
pub(crate) struct Tree<'v, 'a> {
    value: &'v Value<'a>,
    ghost in_range: { is_some (of_json (value_view value.now)) ≡ true },
}

impl<'v, 'a> Tree<'v, 'a> {
    // The data that a value is, if its numbers are in range.
    pub(crate) fn new(value: &'v Value<'a>) -> Option<Tree<'v, 'a>>
        ensures { option_map (λ tree. data_of (value_view tree.value.now)) result
            ≡ of_json (value_view value.now) }
    {
        if is_data(value) {
            Some(Tree { value })
        } else {
            None
        }
    }

    // What stands behind a key, the last time that the object has it.
    pub(crate) fn get(self, key: &str) -> Option<Tree<'v, 'a>>
        ensures { option_map (λ tree. data_of (value_view tree.value.now)) result
            ≡ get key.now (data_of (value_view self.entry.value.now)) }
    {
        let value = self.value.get(key)?;
        Some(Tree { value })
    }

    // The string that this is.
    pub(crate) fn as_str(self) -> Option<&'a str>
        ensures { option_map (λ text. text.now) result
            ≡ as_str (data_of (value_view self.entry.value.now)) }
    {
        self.value.as_str()
    }

    // The whole number that this is.
    pub(crate) fn as_u64(self) -> Option<u64>
        ensures { result ≡ number_of (data_of (value_view self.entry.value.now)) }
    {
        number(self.value.as_number()?)?
    }

    // Copies of the strings of the array that this is, or none where it isn't an array of strings.
    pub(crate) fn texts(self, alloc: Global) -> Result<Vec<Text>, AllocError>
        ensures { IfOk result (λ texts.
            texts.items ≡ unwrap_or (texts_of (data_of (value_view self.entry.value.now))) []) }
    {
        match self.value {
            Value::Array(items) => copies(alloc, items),
            _ => Ok(Vec::new(alloc)),
        }
    }
}

// Copies of the strings that some elements are, or none where one of them isn't a string.
fn copies(alloc: Global, items: &[Value<'_>]) -> Result<Vec<Text>, AllocError>
    ensures { IfOk result (λ texts.
        texts.items ≡ unwrap_or (tree_texts (items_view items.now)) []) }
{
    let mut texts = Vec::with_capacity(alloc, items.len())?;
    for item in items {
        match item.as_str() {
            Some(text) => texts.push(Text::copy(alloc, text)?)?,
            None => return Ok(Vec::new(alloc)),
        }
    }
    Ok(texts)
}
