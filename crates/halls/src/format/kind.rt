// The kinds of a list's records, with their numbers there.
ghost use Rattle.std.specs.Prelude.{◌≡◌, ◌≢◌, MatchOption};
ghost use Rattle.halls.specs.Inner.Kinds.{kind_number};

#[derive(Clone, Copy, PartialEq, Eq)]
pub enum RecordKind {
    Model = 1,
    Geometry = 2,
    Declaration = 3,
    Vertices = 4,
    Indices = 5,
}

impl RecordKind {
    pub fn number(self) -> u16
        ensures { result ≡ kind_number self }
    {
        self as u16
    }

    // None of a number that no kind has: such records are passed over, and `TryFrom` would have an error that says nothing.
    pub fn of(number: u16) -> Option<RecordKind>
        ensures { MatchOption result ((kind : RecordKind) → kind_number kind ≢ number) (λ kind. kind_number kind ≡ number) }
    {
        match number {
            1 => Some(RecordKind::Model),
            2 => Some(RecordKind::Geometry),
            3 => Some(RecordKind::Declaration),
            4 => Some(RecordKind::Vertices),
            5 => Some(RecordKind::Indices),
            _ => None,
        }
    }
}
