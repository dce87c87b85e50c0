//! The matches of a probe row. Over `Places`.

ghost use Rattle.std.specs.Prelude.{◌≡◌, ◌++◌, ◌∷◌, [], IfOk, OnOk, length, map, slice_get};
ghost use Rattle.std.specs.List.{filter_map};

use crate::places::Places;
use amber_rows::{Row, Value};
use std::alloc::{AllocError, Global};

/// The cells of a probe row, and then those of a build row.
fn beside(alloc: Global, probe: &Row, build: &Row) -> Result<Row, AllocError>
    ensures { IfOk result (λ row. row ≡ probe.now ++ build.now) }
{
    let mut cells: Vec<Value> = Vec::with_capacity(alloc, probe.len().saturating_add(build.len()))?;
    cells.extend_from_slice(probe.get())?;
    cells.extend_from_slice(build.get())?;
    Ok(Row::new(cells))
}

/// Makes cells equal to others, in the room of the texts that they were.
fn set_cells(alloc: Global, places: &mut [Value], cells: &[Value]) -> Result<(), AllocError>
    requires { length places.old ≡ length cells.now }
    ensures { OnOk result (places.new ≡ cells.now) }
{
    for i in 0..cells.len() {
        places[i].set(alloc, &cells[i])?;
    }
    Ok(())
}

/// The same as `beside`, written over the cells of a row that is done with. What that holds means nothing.
fn beside_over(alloc: Global, used: Row, probe: &Row, build: &Row) -> Result<Row, AllocError>
    ensures { IfOk result (λ row. row ≡ probe.now ++ build.now) }
{
    let mut cells = used.into_inner();
    let first = probe.len();
    if cells.len() < first || cells.len() - first != build.len() {
        return beside(alloc, probe, build);
    }
    let (front, back) = cells.split_at_mut(first);
    set_cells(alloc, front, probe.get())?;
    set_cells(alloc, back, build.get())?;
    Ok(Row::new(cells))
}

/// The same as `beside`, written over the cells of a row that is done with, if there is one.
fn beside_in(alloc: Global, used: Option<Row>, probe: &Row, build: &Row) -> Result<Row, AllocError>
    ensures { IfOk result (λ row. row ≡ probe.now ++ build.now) }
{
    match used {
        Some(old) => beside_over(alloc, old, probe, build),
        None => beside(alloc, probe, build),
    }
}

/// Appends the match of a probe row and the build row at this place.
fn add_match(
    alloc: Global,
    probe: &Row,
    build: &[Row],
    place: usize,
    made: &mut Vec<Row>,
    used: &mut Vec<Row>,
) -> Result<(), AllocError>
    ensures { OnOk result (made.new.items
        ≡ made.old.items ++ map
        (λ other. probe.now ++ other) (filter_map (slice_get build.now) (place ∷ []))) }
{
    if let Some(other) = build.get(place) {
        made.push(beside_in(alloc, used.pop(), probe, other)?)?;
    }
    Ok(())
}

/// A probe row before each of the build rows at these places, in their order. They are written over rows that are done
/// with, as far as there are any.
pub fn matches(
    alloc: Global,
    probe: &Row,
    build: &[Row],
    places: &Places,
    used: &mut Vec<Row>,
) -> Result<Vec<Row>, AllocError>
    ensures { IfOk result
        (λ made. made.items ≡ map
        (λ other. probe.now ++ other) (filter_map (slice_get build.now) places.now)) }
{
    let mut made = Vec::with_capacity(alloc, places.len())?;
    let (first, more) = places.get();
    add_match(alloc, probe, build, first, &mut made, used)?;
    for place in more {
        add_match(alloc, probe, build, *place, &mut made, used)?;
    }
    Ok(made)
}
