// What a pass over a hall looks for.
ghost use Rattle.std.specs.Prelude.{◌≡◌};
ghost use Rattle.halls.specs.Inner.Seeking.{last};

// A geometry by its number in the model of a number, both counted from 0.
#[derive(Clone, Copy, Debug, Default, PartialEq, Eq)]
pub struct GeometryId {
    pub model: u64,
    pub index: u64,
}

// As a number: more models and more geometries than a list has, so that the pass comes nearest at the end. No enum of what is sought (a model, the end of one,
// the last one, a geometry): the pass compares these numbers with its counts at each record, and would have to tell the cases apart there.
const LAST: u64 = u64::MAX;

impl GeometryId {
    pub(crate) fn first_of(model: u64) -> GeometryId
        ensures { result ≡ record { model = model; index = 0 } }
    {
        GeometryId { model, index: 0 }
    }

    // Behind all geometries of a model.
    pub(crate) fn end_of(model: u64) -> GeometryId
        ensures { result ≡ record { model = model; index = last } }
    {
        GeometryId { model, index: LAST }
    }

    // Behind the record of a hall's last model.
    pub(crate) fn first_of_last() -> GeometryId
        ensures { result ≡ record { model = last; index = 0 } }
    {
        GeometryId::first_of(LAST)
    }
}
