// Takes a body's tree apart by value: the texts are those that the tree held.
ghost use Rattle.std.specs.Prelude.{◌≡◌, map, string_bytes, IfOk, All};
ghost use Rattle.pairs.specs.Labels.{label_of};
ghost use Rattle.serde_json.specs.Data.{Data, string, array, object, no_members, member};
ghost use Rattle.serde_json.specs.View.{view, items_of};
ghost use Rattle.pushjson.specs.Bodies.{labels_tree, value_tree, stream_tree, body_tree, HaveRisingNames};
ghost use Rattle.pushjson.specs.Queries.{query_tree, trim_tree};
ghost use Rattle.pushjson.specs.Shape.{ReadsTree, ReadsData, TakesValue};
ghost use Rattle.pushjson.specs.Shape.{value_texts_of, stream_texts_of, query_texts_of, trim_texts_of};

use crate::fault::PushFault;
use crate::parts::has_too_many;
use pairs::Meta;
use serde_json::Value;
use simdutf8::basic::from_utf8;
use std::alloc::Global;
use std::collections::btree_map::IntoIter;

// A stream whose times are not read yet.
#[derive(Drop)]
pub(crate) struct StreamTexts {
    // Names and values.
    pub(crate) pairs: Vec<(String, String)>,
    pub(crate) values: Vec<ValueTexts>,
}

// A value whose time is not read yet.
#[derive(Drop)]
pub(crate) struct ValueTexts {
    pub(crate) time: String,
    pub(crate) line: String,
    // The third element, where there is one.
    pub(crate) third: Option<Meta>,
}

// A query whose times are not read yet.
#[derive(Drop)]
pub(crate) struct QueryTexts {
    pub(crate) pairs: Vec<(String, String)>,
    pub(crate) from: String,
    pub(crate) to: String,
}

// A trim whose bound is not read yet.
#[derive(Drop)]
pub(crate) struct TrimTexts {
    pub(crate) pairs: Vec<(String, String)>,
    pub(crate) bound: String,
}

pub(crate) fn read_tree(alloc: Global, bytes: &[u8]) -> Result<Value, PushFault>
    ensures { ReadsData bytes.now result }
{
    let Ok(text) = from_utf8(bytes) else {
        return Err(PushFault::NotJson);
    };
    if has_too_many(alloc, text)? {
        return Err(PushFault::TooManyParts);
    }
    Value::from_str(alloc, text).map_err(|fault| {
        if fault.is_memory() {
            PushFault::Memory
        } else {
            PushFault::NotJson
        }
    })
}

fn text_of(value: Value) -> Result<String, PushFault>
    ensures { ReadsTree string_bytes string (view value) result }
{
    match value {
        Value::String(text) => Ok(text),
        _ => Err(PushFault::WrongShape),
    }
}

// The items of an array.
fn items_in(value: Value) -> Result<Vec<Value>, PushFault>
    ensures { ReadsTree (λ items. map view items.items) (λ ds. array (items_of ds)) (view value) result }
{
    match value {
        Value::Array(items) => Ok(items),
        _ => Err(PushFault::WrongShape),
    }
}

// The value of the next member, where this is its key.
fn next_value(members: &mut IntoIter<String, Value>, key: &str) -> Option<Value>
    ensures { TakesValue key.now members.old result members.new }
{
    let (name, value) = members.next()?;
    if name.as_str() == key {
        Some(value)
    } else {
        None
    }
}

// The value of an object with this one key.
fn only_member(value: Value, key: &str) -> Result<Value, PushFault>
    ensures { ReadsTree view (λ d. object (member key.now d no_members)) (view value) result }
{
    let Value::Object(members) = value else {
        return Err(PushFault::WrongShape);
    };
    let mut members = members.into_iter();
    let Some(inner) = next_value(&mut members, key) else {
        return Err(PushFault::WrongShape);
    };
    if members.next().is_some() {
        return Err(PushFault::WrongShape);
    }
    Ok(inner)
}

// The values of an object with these two keys, which rise.
fn two_members(value: Value, first: &str, second: &str) -> Result<(Value, Value), PushFault>
    ensures { ReadsTree (λ p. (view p.0, view p.1)) (λ (p : Data
        × Data). object (member first.now p.0 (member second.now p.1 no_members))) (view value) result }
{
    let Value::Object(members) = value else {
        return Err(PushFault::WrongShape);
    };
    let mut members = members.into_iter();
    let Some(first) = next_value(&mut members, first) else {
        return Err(PushFault::WrongShape);
    };
    let Some(second) = next_value(&mut members, second) else {
        return Err(PushFault::WrongShape);
    };
    if members.next().is_some() {
        return Err(PushFault::WrongShape);
    }
    Ok((first, second))
}

// The values of an object with these three keys, which rise.
fn three_members(
    value: Value,
    first: &str,
    second: &str,
    third: &str,
) -> Result<(Value, Value, Value), PushFault>
    ensures { ReadsTree (λ p. (view p.0, view p.1, view p.2)) (λ (p : Data × Data × Data). object (member first.now p.0
        (member second.now p.1 (member third.now p.2 no_members)))) (view value) result }
{
    let Value::Object(members) = value else {
        return Err(PushFault::WrongShape);
    };
    let mut members = members.into_iter();
    let Some(first) = next_value(&mut members, first) else {
        return Err(PushFault::WrongShape);
    };
    let Some(second) = next_value(&mut members, second) else {
        return Err(PushFault::WrongShape);
    };
    let Some(third) = next_value(&mut members, third) else {
        return Err(PushFault::WrongShape);
    };
    if members.next().is_some() {
        return Err(PushFault::WrongShape);
    }
    Ok((first, second, third))
}

// The names and values of an object of texts.
fn label_texts(alloc: Global, value: Value) -> Result<Vec<(String, String)>, PushFault>
    ensures tree { ReadsTree (λ pairs. map label_of pairs.items) (λ ps. object (labels_tree ps)) (view value) result }
    ensures sorted { IfOk result (λ pairs. HaveRisingNames (map label_of pairs.items)) }
{
    let Value::Object(members) = value else {
        return Err(PushFault::WrongShape);
    };
    let mut pairs = Vec::with_capacity(alloc, members.len())?;
    for (name, value) in members {
        let text = text_of(value)?;
        pairs.push((name, text))?;
    }
    Ok(pairs)
}

// The metadata in an object of texts.
#[tactic(auto, using(crate::proofs::Trees::names_rise))]
fn meta_in(alloc: Global, value: Value) -> Result<Meta, PushFault>
    ensures { ReadsTree (λ meta. meta) (λ ps. object (labels_tree ps)) (view value) result }
{
    match Meta::in_order(alloc, label_texts(alloc, value)?) {
        Ok(Some(meta)) => Ok(meta),
        // (an object's names rise)
        Ok(None) => unreachable!(),
        Err(_) => Err(PushFault::Memory),
    }
}

// The text of a time, a line, and metadata where there is a third element.
fn value_texts(alloc: Global, value: Value) -> Result<ValueTexts, PushFault>
    ensures { ReadsTree value_texts_of value_tree (view value) result }
{
    let mut items = items_in(value)?.into_iter();
    let Some(time) = items.next() else {
        return Err(PushFault::WrongShape);
    };
    let Some(line) = items.next() else {
        return Err(PushFault::WrongShape);
    };
    let third = items.next();
    if items.next().is_some() {
        return Err(PushFault::WrongShape);
    }
    let time = text_of(time)?;
    let line = text_of(line)?;
    let third = match third {
        Some(object) => Some(meta_in(alloc, object)?),
        None => None,
    };
    Ok(ValueTexts { time, line, third })
}

fn values_texts(alloc: Global, value: Value) -> Result<Vec<ValueTexts>, PushFault>
    ensures { ReadsTree (λ values. map value_texts_of values.items) (λ vs. array (items_of (map value_tree vs)))
        (view value) result }
{
    let items = items_in(value)?;
    let mut values = Vec::with_capacity(alloc, items.len())?;
    for item in items {
        values.push(value_texts(alloc, item)?)?;
    }
    Ok(values)
}

fn stream_texts(alloc: Global, value: Value) -> Result<StreamTexts, PushFault>
    ensures tree { ReadsTree stream_texts_of stream_tree (view value) result }
    ensures sorted { IfOk result (λ s. HaveRisingNames (map label_of s.pairs.items)) }
{
    let (labels, values) = two_members(value, "stream", "values")?;
    let pairs = label_texts(alloc, labels)?;
    let values = values_texts(alloc, values)?;
    Ok(StreamTexts { pairs, values })
}

// The streams of a push body.
pub(crate) fn body_texts(alloc: Global, value: Value) -> Result<Vec<StreamTexts>, PushFault>
    ensures tree { ReadsTree (λ streams. map stream_texts_of streams.items) body_tree (view value) result }
    ensures sorted { IfOk result (λ streams. All (λ s. HaveRisingNames s.pairs) (map stream_texts_of streams.items)) }
{
    let items = items_in(only_member(value, "streams")?)?;
    let mut streams = Vec::with_capacity(alloc, items.len())?;
    for item in items {
        streams.push(stream_texts(alloc, item)?)?;
    }
    Ok(streams)
}

pub(crate) fn query_texts(alloc: Global, value: Value) -> Result<QueryTexts, PushFault>
    ensures tree { ReadsTree query_texts_of query_tree (view value) result }
    ensures sorted { IfOk result (λ q. HaveRisingNames (map label_of q.pairs.items)) }
{
    let (from, labels, to) = three_members(value, "from", "stream", "to")?;
    let from = text_of(from)?;
    let to = text_of(to)?;
    let pairs = label_texts(alloc, labels)?;
    Ok(QueryTexts { pairs, from, to })
}

pub(crate) fn trim_texts(alloc: Global, value: Value) -> Result<TrimTexts, PushFault>
    ensures tree { ReadsTree trim_texts_of trim_tree (view value) result }
    ensures sorted { IfOk result (λ t. HaveRisingNames (map label_of t.pairs.items)) }
{
    let (bound, labels) = two_members(value, "bound", "stream")?;
    let bound = text_of(bound)?;
    let pairs = label_texts(alloc, labels)?;
    Ok(TrimTexts { pairs, bound })
}
