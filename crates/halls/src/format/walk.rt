// A list's records, one behind the other by their lengths.
ghost use Rattle.std.specs.Prelude.{◌≡◌, ◌+◌, ◌≤◌, ◌<◌, length, MatchOption};
ghost use Rattle.std.specs.Iterator.{YieldsFirst, item_count};
ghost use Rattle.sections.specs.Le.{field};
ghost use Rattle.halls.specs.Inner.Spans.{Spans, spans_at};

use sections::{u16_le, u32_le};
use std::marker::Model;

// A record's kind, where it begins, and where its body begins and ends. The kind is the number that stands there: with an `Option<RecordKind>` in its place
// all was proved, but code two lines shorter took 29 lines more of definitions and laws.
#[derive(Clone, Copy)]
pub struct RecordSpan {
    pub kind: u16,
    pub at: usize,
    pub start: usize,
    pub end: usize,
}

// The records from `at` on, seen as the list of their spans.
#[derive(Drop)]
pub struct Records<'a> {
    list: &'a [u8],
    at: usize,
}

impl<'a> Model for Records<'a> {
    ghost use Rattle.std.specs.Prelude.{List, ◌≤◌, length};
    ghost use Rattle.halls.specs.Inner.Spans.{spans_at};
    ghost use Rattle.halls.specs.declared.format.walk.RecordSpan.{RecordSpan};

    ghost Value = { List RecordSpan };

    ghost view = { λ r. spans_at r.list.now r.at };

    ghost invariant = { λ r. r.at ≤ length r.list.now };
}

// The first that is not whole ends them.
pub fn records_from<'a>(list: &'a [u8], at: usize) -> Records<'a>
    requires { at ≤ length list.now }
    ensures { result ≡ spans_at list.now at }
{
    Records { list, at }
}

impl<'a> Iterator for Records<'a> {
    type Item = RecordSpan;

    ghost next_gives = { YieldsFirst (λ rest. rest) };

    ghost remaining = { item_count (λ rest. rest) };

    fn next(&mut self) -> Option<RecordSpan> {
        let record = record_at(self.list, self.at)?;
        self.at = record.end;
        Some(record)
    }
}

// The record that begins at `at`; None where no whole one does.
fn record_at(list: &[u8], at: usize) -> Option<RecordSpan>
    requires { at ≤ length list.now }
    ensures { MatchOption result (length list.now < at + 6 + field 4 list.now at) (Spans list.now at) }
{
    if list.len() - at < 6 {
        return None;
    }
    let start = at + 6;
    let length = u32_le(list, at) as usize;
    if list.len() - start < length {
        return None;
    }
    Some(RecordSpan {
        kind: u16_le(list, at + 4),
        at,
        start,
        end: start + length,
    })
}
