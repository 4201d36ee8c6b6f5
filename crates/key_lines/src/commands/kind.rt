// The kinds of commands, by the numbers that lines begin with.
ghost use Rattle.std.specs.Prelude.{◌≡◌};
ghost use Rattle.key_lines.specs.Kinds.{kind_number, Names};

use refusals::Refusal;

#[derive(Clone, Copy, Debug, PartialEq, Eq, Hash)]
pub(crate) enum Kind {
    Place,
    Withdraw,
    Tell,
    Run,
    Collect,
}

impl Kind {
    pub(crate) fn number(self) -> u16
        ensures { result ≡ kind_number self }
    {
        match self {
            Kind::Place => 1,
            Kind::Withdraw => 2,
            Kind::Tell => 3,
            Kind::Run => 4,
            Kind::Collect => 5,
        }
    }
}

impl TryFrom<u16> for Kind {
    type Error = Refusal;

    ghost try_from_gives = { Names };

    fn try_from(number: u16) -> Result<Self, Refusal> {
        match number {
            1 => Ok(Kind::Place),
            2 => Ok(Kind::Withdraw),
            3 => Ok(Kind::Tell),
            4 => Ok(Kind::Run),
            5 => Ok(Kind::Collect),
            _ => Err(Refusal::BadLine),
        }
    }
}
