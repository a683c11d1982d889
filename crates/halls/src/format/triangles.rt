// The triangles of a hall list.
ghost use Rattle.std.specs.Prelude.{◌≡◌, ◌-◌, ◌/◌, ◌^◌, min};
ghost use Rattle.halls.specs.Records.{records};
ghost use Rattle.halls.specs.Triangles.{added, awaits, held_count, triangles_in};

use crate::format::kind::RecordKind;
use crate::format::walk::records_from;
use sections::u32_le;

// For each geometry its stored index count, or the indices that it holds where that is 0, in threes; the greatest u64
// where the sum is above it. A record that is not whole ends the list.
pub fn triangle_count(list: &[u8]) -> u64
    ensures { result ≡ min (triangles_in (records list.now)) (2 ^ 64 - 1) }
{
    let mut awaited = false;
    let mut total: u64 = 0;
    for record in records_from(list, 0) {
        let body = &list[record.start..record.end];
        total = total.saturating_add(record_triangles(awaited, record.kind, body));
        awaited = awaits_indices(awaited, record.kind, body);
    }
    total
}

// What a record adds. `awaited`: the last geometry stored no index count, and its indices have not come yet.
#[tactic(auto, unfolding(crate::specs::Triangles::added))]
fn record_triangles(awaited: bool, kind: u16, body: &[u8]) -> u64
    ensures { result ≡ added awaited (record { kind = kind; body = body.now }) }
{
    match RecordKind::of(kind) {
        Some(RecordKind::Geometry) => u64::from(u32_le(body, 2) / 3),
        Some(RecordKind::Indices) if awaited => held_triangles(body),
        _ => 0,
    }
}

// The indices that a record holds behind their count, in threes.
fn held_triangles(body: &[u8]) -> u64
    ensures { result ≡ held_count body.now / 3 }
{
    (body.len().saturating_sub(4) / 4 / 3) as u64
}

// Whether indices are awaited behind a record.
#[tactic(auto, unfolding(crate::specs::Triangles::awaits))]
fn awaits_indices(awaited: bool, kind: u16, body: &[u8]) -> bool
    ensures { result ≡ awaits awaited (record { kind = kind; body = body.now }) }
{
    match RecordKind::of(kind) {
        Some(RecordKind::Geometry) => u32_le(body, 2) == 0,
        Some(RecordKind::Indices) => false,
        _ => awaited,
    }
}
