// The kinds of a script's records.
ghost use Rattle.std.specs.Prelude.{◌≡◌};
ghost use Rattle.script.specs.Kinds.{kind_of, body_length, Names};

use wire::refusal::Refusal;

#[derive(Clone, Copy, Debug, PartialEq, Eq)]
pub enum Kind {
    NewSegment,
    NewStation,
    Startup,
    Shutdown,
    Clock,
    Deliver,
}

impl TryFrom<u8> for Kind {
    type Error = Refusal;

    ghost try_from_gives = { Names };

    fn try_from(byte: u8) -> Result<Self, Refusal> {
        match byte {
            1 => Ok(Kind::NewSegment),
            2 => Ok(Kind::NewStation),
            3 => Ok(Kind::Startup),
            4 => Ok(Kind::Shutdown),
            5 => Ok(Kind::Clock),
            6 => Ok(Kind::Deliver),
            _ => Err(Refusal::UnknownKind),
        }
    }
}

impl Kind {
    // How long the body of a record is.
    pub fn body_length(self) -> usize
        ensures { result ≡ body_length (Some self) }
    {
        match self {
            Kind::NewSegment | Kind::NewStation => 6,
            Kind::Startup | Kind::Shutdown => 1,
            Kind::Clock | Kind::Deliver => 2,
        }
    }
}
