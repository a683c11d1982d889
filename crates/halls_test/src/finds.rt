// Rows about the finders: in the hall of the first a bytes of the b lent.
use crate::buffers::{HALL, put_row};
use crate::calls::hall_buffer;
use halls::GeometryPlace;
use replay::geometry_id;
use std::fmt;
use std::io::{self, Write};
use testing::{Row, first, numbers, zeros};

// find_model, of model c, or find_geometry, of its geometry d.
#[derive(Clone, Copy)]
pub enum Finder {
    Model,
    Geometry,
}

impl fmt::Display for Finder {
    fn fmt<W: fmt::Write>(&self, f: &mut fmt::Formatter<W>) -> fmt::Result {
        f.write_str(match self {
            Finder::Model => "find model",
            Finder::Geometry => "find geometry",
        })
    }
}

// In a buffer as the calls have it.
pub fn find_row(out: &mut impl Write, finder: Finder, row: Row) -> io::Result<()> {
    let b = hall_buffer(row, 32);
    write!(out, "{finder}")?;
    find(out, finder, first(&b, row.b as usize), row)
}

// In a hall made by e runs.
#[inline(never)]
pub fn crowded_row(out: &mut impl Write, finder: Finder, row: Row) -> io::Result<()> {
    let mut b = zeros::<HALL>();
    put_row(&mut b, row);
    write!(out, "crowded {finder}")?;
    find(out, finder, first(&b, row.b as usize), row)
}

fn find(out: &mut impl Write, finder: Finder, lent: &[u8], row: Row) -> io::Result<()> {
    match finder {
        Finder::Model => find_model(out, lent, row),
        Finder::Geometry => find_geometry(out, lent, row),
    }
}

fn find_model(out: &mut impl Write, lent: &[u8], row: Row) -> io::Result<()> {
    numbers(out, row, 3)?;
    match halls::find_model(lent, row.a as usize, row.c) {
        Some(place) => writeln!(out, " at {place:x}"),
        None => writeln!(out, " absent"),
    }
}

fn find_geometry(out: &mut impl Write, lent: &[u8], row: Row) -> io::Result<()> {
    numbers(out, row, 4)?;
    match halls::find_geometry(lent, row.a as usize, geometry_id(row)) {
        Some(p) => places(out, p)?,
        None => write!(out, " absent")?,
    }
    writeln!(out)
}

fn places(out: &mut impl Write, p: GeometryPlace) -> io::Result<()> {
    write!(
        out,
        " at {:x} {:x} {:x} {:x} {:x}",
        p.model, p.geometry, p.declaration, p.vertices, p.indices
    )
}
