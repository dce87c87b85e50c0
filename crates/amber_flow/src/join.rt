//! Reads a join. Rests on `inputs` and `columns`.

ghost use Rattle.std.specs.Prelude.{◌≡◌, ◌++◌, ◌<◌, ◌≤◌, All, IfOk, OnOk, false, is_some, length, map, true};
ghost use Rattle.std.specs.List.{filter_map, list_all};
ghost use Rattle.serde_json.specs.View.{view};
ghost use Rattle.amber_rows.specs.Columns.{IsEarlier, column_kind_at};
ghost use Rattle.amber_flow.specs.Inputs.{IsNarrow};
ghost use Rattle.amber_flow.specs.Joins.{AreKeys, are_alike, are_paired, are_same_kinds, join_of, join_over, keys_of};
ghost use Rattle.amber_flow.specs.Parts.{IsMeant};
ghost use Rattle.amber_flow.specs.PartAnswers.{AnswersPart};

use crate::columns::{add_columns, find_columns, kind_of_column};
use crate::error::{FlowWhy, ReadErr};
use crate::fields::{text_field, texts_field};
use crate::inputs::{find_input, schema_at};
use crate::parts::Parts;
use amber_rows::{ColKind, Cols, Column, Operator, Schema, What};
use serde_json::Value;
use std::alloc::{AllocError, Global};

/// The keys of a join: columns of its two sides, in pairs.
#[derive(Drop)]
pub struct JoinKeys {
    pub build: Cols,
    pub probe: Cols,
}

/// Whether there is a key, and as many on each side.
fn may_be_keys(build: &[&str], probe: &[&str]) -> bool
    ensures paired { result
        ≡ are_paired (map (λ name. name.now) build.now) (map (λ name. name.now) probe.now) }
    ensures some { result ≡ true → 0 < length build.now }
{
    !build.is_empty() && build.len() == probe.len()
}

/// Whether two kinds are there and the same.
fn is_same(kind: Option<ColKind>, other: Option<ColKind>) -> bool
    ensures { result ≡ are_same_kinds kind other }
{
    match (kind, other) {
        (Some(ColKind::Int), Some(ColKind::Int)) => true,
        (Some(ColKind::Text), Some(ColKind::Text)) => true,
        _ => false,
    }
}

/// Whether columns with these numbers have the same kinds at the same places.
fn are_same(build: &[Column], build_keys: &[u32], probe: &[Column], probe_keys: &[u32]) -> bool
    requires build { list_all (λ number. is_some (column_kind_at build.now number)) build_keys.now
        ≡ true }
    requires probe { list_all (λ number. is_some (column_kind_at probe.now number)) probe_keys.now
        ≡ true }
    ensures { result ≡ are_alike (filter_map (column_kind_at build.now) build_keys.now)
        (filter_map (column_kind_at probe.now) probe_keys.now) }
{
    if build_keys.len() != probe_keys.len() {
        return false;
    }
    for index in 0..build_keys.len() {
        let kind = kind_of_column(build, build_keys[index]);
        let other = kind_of_column(probe, probe_keys[index]);
        if !is_same(kind, other) {
            return false;
        }
    }
    true
}

/// The columns with these names on the two sides.
#[tactic(auto, unfolding(crate::specs::Joins::keys_of))]
fn read_keys(
    alloc: Global,
    build: &[Column],
    probe: &[Column],
    build_names: &[&str],
    probe_names: &[&str],
) -> Result<JoinKeys, ReadErr>
    requires narrow_build { length build.now ≤ 64 }
    requires narrow_probe { length probe.now ≤ 64 }
    ensures keys { AnswersPart result (keys_of build.now probe.now
        (map (λ name. name.now) build_names.now) (map (λ name. name.now) probe_names.now)) }
    ensures fit { IfOk result
        (AreKeys build.now probe.now (map (λ name. name.now) build_names.now)) }
{
    let build_keys = find_columns(alloc, build, build_names)?;
    let probe_keys = find_columns(alloc, probe, probe_names)?;
    if !are_same(build, build_keys.get(), probe, probe_keys.get()) {
        return Err(ReadErr::Bad(FlowWhy::Mismatch));
    }
    Ok(JoinKeys {
        build: build_keys,
        probe: probe_keys,
    })
}

/// The columns of the probe side, and then those of the build side.
fn join_columns(alloc: Global, probe: &[Column], build: &[Column]) -> Result<Schema, AllocError>
    ensures { IfOk result (λ schema. schema ≡ probe.now ++ build.now) }
{
    let mut columns = Vec::new(alloc);
    add_columns(&mut columns, probe)?;
    add_columns(&mut columns, build)?;
    Ok(Schema::new(columns))
}

/// What a join of the rows of two earlier operators does.
#[tactic(auto, unfolding(crate::specs::Joins::join_over))]
fn read_over(
    alloc: Global,
    before: &[Operator],
    build: u32,
    probe: u32,
    build_names: &[&str],
    probe_names: &[&str],
) -> Result<Parts, ReadErr>
    requires narrow { All IsNarrow before.now }
    requires build { IsEarlier before.now build }
    requires probe { IsEarlier before.now probe }
    requires some { 0 < length build_names.now }
    ensures { IsMeant before.now (join_over before.now build probe
        (map (λ name. name.now) build_names.now) (map (λ name. name.now) probe_names.now)) result }
{
    let built = schema_at(before, build).get();
    let probed = schema_at(before, probe).get();
    let keys = read_keys(alloc, built, probed, build_names, probe_names)?;
    let schema = join_columns(alloc, probed, built)?;
    Ok(Parts {
        what: What::Join {
            build,
            probe,
            build_keys: keys.build,
            probe_keys: keys.probe,
        },
        schema,
    })
}

/// What a join does.
#[tactic(auto, unfolding(crate::specs::Joins::join_of))]
pub fn read_join(alloc: Global, before: &[Operator], tree: &Value) -> Result<Parts, ReadErr>
    requires few { length before.now < 32 }
    requires narrow { All IsNarrow before.now }
    ensures { IsMeant before.now (join_of before.now (view tree.now)) result }
{
    let build_id = text_field(tree, "build")?;
    let probe_id = text_field(tree, "probe")?;
    let build_names = texts_field(alloc, tree, "build_keys")?;
    let probe_names = texts_field(alloc, tree, "probe_keys")?;
    let build_names = build_names.as_slice();
    let probe_names = probe_names.as_slice();
    if !may_be_keys(build_names, probe_names) {
        return Err(ReadErr::Bad(FlowWhy::Shape));
    }
    let build = find_input(before, build_id)?;
    let probe = find_input(before, probe_id)?;
    read_over(alloc, before, build, probe, build_names, probe_names)
}
