// Checks 11, 14 to 18 and 27 of models and geometries as they are read, and what they come to as a hall's. It runs after `measure_list`
// has refused nothing.
//
// `Fitting` is asked of a result that is still to be formed: as an invariant of `Taken` it would be known of both summands, and not of their sum.
ghost use Rattle.std.specs.Prelude.{◌≡◌, ◌*◌, ◌^◌, ◌<◌, length};
ghost use Rattle.halls.specs.Inner.Judging.{HeadJudged, head_of, indices_lowest_of, lowest_of};
ghost use Rattle.halls.specs.Inner.Taking.{as_halls, lowest_in, geometry_taken, nothing_taken, together, all_taken};
ghost use Rattle.halls.specs.Inner.Taking.{record_taken, model_taken, content_seen, held_seen, Fitting};

use crate::check::geometry::{GeometryHead, head_lowest};
use crate::check::lists::ByteIndices;
use crate::check::order::PASSED;
use crate::check::pass::Summary;
use crate::check::scan::triangles_lowest;
use crate::format::front::{GeometryShape, model_units};
use crate::read::parts::{StoredIndices, WholeGeometry};
use crate::read::stored::{Geometries, HeldGeometry, Models, StoredModel};
use crate::read::view::{IndexView, IndexWidth, held};
use vertices::VertexBuffer;

// `lowest` is the rank of the first check that fails, or PASSED; `length` the bytes of their records.
#[derive(Clone, Copy)]
pub struct Taken {
    pub lowest: u8,
    pub summary: Summary,
    pub length: u64,
}

pub fn judge_models(models: Models) -> Taken
    requires { Fitting (all_taken model_taken models) }
    ensures { result ≡ all_taken model_taken models.entry }
{
    models.fold(nothing_taken(), |total, model| {
        taken_together(total, judge_model(&model))
    })
}

fn judge_model(model: &StoredModel) -> Taken
    requires { Fitting (model_taken model.now) }
    ensures { result ≡ model_taken model.now }
{
    with_record(judge_geometries(model.geometries()))
}

fn judge_geometries(geometries: Geometries) -> Taken
    requires { Fitting (all_taken geometry_taken geometries) }
    ensures { result ≡ all_taken geometry_taken geometries.entry }
{
    geometries.fold(nothing_taken(), |total, geometry| {
        taken_together(total, judge_geometry(&geometry.view()))
    })
}

fn judge_geometry(geometry: &HeldGeometry) -> Taken
    ensures { result ≡ geometry_taken geometry.now }
{
    let view = geometry.view;
    let shape = GeometryShape {
        content: content_seen(view.buffer),
        held: held_seen(view.indices),
    };
    Taken {
        lowest: held_lowest(geometry),
        summary: Summary {
            geometries: 1,
            units: shape.units(),
            ..Summary::default()
        },
        length: shape.record_bytes() as u64,
    }
}

fn content_seen(buffer: Option<VertexBuffer>) -> usize
    ensures { (result ≡ content_seen buffer) × (result < 2 ^ 48) }
{
    buffer.map_or(0, |b| b.size())
}

fn held_seen(indices: Option<IndexView>) -> usize
    ensures { (result ≡ held_seen indices) × (result < 2 ^ 32) }
{
    indices.map_or(0, |view| held(view) as usize)
}

// The rank of the first check that a geometry fails, or PASSED: check 11 where vertices or indices are lacking.
fn held_lowest(geometry: &HeldGeometry) -> u8
    ensures { result ≡ lowest_in (as_halls geometry.now) }
{
    geometry.whole().map_or(11, |whole| whole_lowest(&whole))
}

// Checks 14 to 17, then 18 and 27: where they passed, the geometry's vertex count is the buffer's, and its indices make whole triangles.
fn whole_lowest(geometry: &WholeGeometry) -> u8
    ensures { result ≡ lowest_of geometry.now }
{
    let lowest = numbers_lowest(geometry);
    if lowest != PASSED {
        return lowest;
    }
    let numbers = geometry.numbers;
    let triangles = numbers.triangle_count as usize;
    items_lowest(&geometry.indices, triangles, numbers.vertex_count)
}

// The first of checks 14 to 17 that fails, or PASSED.
fn numbers_lowest(geometry: &WholeGeometry) -> u8
    ensures { HeadJudged (head_of geometry.now) result }
{
    let buffer = geometry.buffer;
    head_lowest(GeometryHead {
        numbers: geometry.numbers,
        declaration: buffer.or_position_only(),
        layout: 0,
        vertices_stride: buffer.vertex_stride,
        vertices_count: buffer.vertex_count,
        indices_count: geometry.indices.count(),
        held: geometry.indices.held() as usize,
    })
}

// Checks 18 and 27 of indices that make so many triangles.
fn items_lowest(indices: &StoredIndices, triangles: usize, limit: u16) -> u8
    requires { length indices.now.items ≡ 3 * triangles }
    ensures { result ≡ indices_lowest_of limit indices.now.items }
{
    let bytes = indices.bytes;
    let limit = u32::from(limit);
    let Some(items) = indices.view.items else {
        return PASSED;
    };
    match items.width {
        IndexWidth::Two => triangles_lowest(ByteIndices::<u16>::of(bytes), triangles, limit),
        IndexWidth::Four => triangles_lowest(ByteIndices::<u32>::of(bytes), triangles, limit),
    }
}

fn nothing_taken() -> Taken
    ensures { result ≡ nothing_taken }
{
    Taken {
        lowest: PASSED,
        summary: Summary::default(),
        length: 0,
    }
}

fn taken_together(a: Taken, b: Taken) -> Taken
    requires { Fitting (together a b) }
    ensures { result ≡ together a b }
{
    Taken {
        lowest: a.lowest.min(b.lowest),
        summary: Summary {
            models: a.summary.models + b.summary.models,
            geometries: a.summary.geometries + b.summary.geometries,
            units: a.summary.units + b.summary.units,
        },
        length: a.length + b.length,
    }
}

// A model of its geometries: its record comes before them.
fn with_record(inner: Taken) -> Taken
    requires { Fitting (together (record_taken inner.summary.geometries) inner) }
    ensures { result ≡ together (record_taken inner.summary.geometries) inner }
{
    let entries = inner.summary.geometries;
    let model = Taken {
        lowest: PASSED,
        summary: Summary {
            models: 1,
            units: model_units(entries),
            ..Summary::default()
        },
        length: 12 + 2 * (entries as u64),
    };
    taken_together(model, inner)
}
