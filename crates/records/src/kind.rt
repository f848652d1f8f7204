// What a record of an order file is about.
ghost use Rattle.std.specs.Prelude.{◌≡◌};
ghost use Rattle.std.specs.Option.{ok_or};
ghost use Rattle.board.specs.declared.fault.Refusal.TheVariants.{UnknownKind};
ghost use Rattle.records.specs.Wire.{number_of, kind_of};

use board::fault::Refusal;

#[derive(Clone, Copy, PartialEq, Eq, Debug, Drop)]
pub enum Kind {
    Head = 1,
    Core,
    Task,
    Need,
    Slots,
    End,
}

impl From<Kind> for u8 {
    ghost from_gives = { λ kind number. number ≡ number_of kind };

    fn from(kind: Kind) -> u8 {
        kind as u8
    }
}

impl TryFrom<u16> for Kind {
    type Error = Refusal;

    ghost try_from_gives = { λ number kind. kind ≡ ok_or (kind_of number) UnknownKind };

    fn try_from(number: u16) -> Result<Kind, Refusal> {
        match number {
            1 => Ok(Kind::Head),
            2 => Ok(Kind::Core),
            3 => Ok(Kind::Task),
            4 => Ok(Kind::Need),
            5 => Ok(Kind::Slots),
            6 => Ok(Kind::End),
            _ => Err(Refusal::UnknownKind),
        }
    }
}
