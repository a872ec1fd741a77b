ghost use Rattle.std.specs.Prelude.{◌≡◌};
ghost use Rattle.rules.specs.Records.{is_data, is_header, is_cut, is_marker};

// What a record is, by its first number.
#[derive(Clone, Copy, PartialEq, Eq, Debug)]
pub enum Kind {
    Data,
    Header,
    CutHeader,
    Marker,
    Other,
}

impl Kind {
    pub fn is_data(self) -> bool
        ensures { result ≡ is_data self }
    {
        self == Kind::Data
    }

    // A header of either kind.
    pub fn is_header(self) -> bool
        ensures { result ≡ is_header self }
    {
        matches!(self, Kind::Header | Kind::CutHeader)
    }

    pub fn is_cut(self) -> bool
        ensures { result ≡ is_cut self }
    {
        self == Kind::CutHeader
    }

    pub fn is_marker(self) -> bool
        ensures { result ≡ is_marker self }
    {
        self == Kind::Marker
    }
}
