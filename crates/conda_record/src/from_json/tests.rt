//! Records out of JSON.
use crate::json_rows::{Numbers, RECORDS, REFUSED, WHOLE, is_whole, numbers_of};
use crate::{JsonRefusal, PackageRecord};
use serde_json::Value;
use std::alloc::Global;
use std::test::Fail;

fn refusal_of(alloc: Global, text: &str) -> Result<Option<JsonRefusal>, Fail> {
    let value = Value::from_str(alloc, text)?;
    Ok(PackageRecord::from_json(alloc, &value).err())
}

#[test]
fn a_value_without_the_three_strings_is_refused(rt: HostRuntime) -> Result<(), Fail> {
    for text in REFUSED {
        let refusal = refusal_of(rt.alloc(), text)?;
        assert_eq!(rt; refusal, Some(JsonRefusal::Fields), "{text}");
    }
    Ok(())
}

// The numbers of the record that a text is, if it is one.
fn numbers_in(alloc: Global, text: &str) -> Result<Option<Numbers>, Fail> {
    let value = Value::from_str(alloc, text)?;
    match PackageRecord::from_json(alloc, &value) {
        Ok(record) => Ok(Some(numbers_of(record.view()))),
        Err(_) => Ok(None),
    }
}

#[test]
fn an_optional_key_of_another_kind_counts_as_missing(rt: HostRuntime) -> Result<(), Fail> {
    for (text, numbers) in RECORDS {
        assert!(rt; numbers_in(rt.alloc(), text)? == Some(numbers), "{text}");
    }
    Ok(())
}

fn is_read_whole(alloc: Global) -> Result<bool, Fail> {
    let value = Value::from_str(alloc, WHOLE)?;
    match PackageRecord::from_json(alloc, &value) {
        Ok(record) => Ok(is_whole(record.view())),
        Err(_) => Ok(false),
    }
}

#[test]
fn all_keys_are_read(rt: HostRuntime) -> Result<(), Fail> {
    assert!(rt; is_read_whole(rt.alloc())?);
    Ok(())
}
