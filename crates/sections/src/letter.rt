// The letter of an order: by which rule its slots are shared.
ghost use Rattle.std.specs.Prelude.{◌≡◌};
ghost use Rattle.std.specs.Option.{ok_or};
ghost use Rattle.board.specs.declared.fault.Refusal.TheVariants.{ValueOutOfBounds};
ghost use Rattle.sections.specs.Letters.{sharing_of};

use board::fault::Refusal;

#[derive(Clone, Copy, PartialEq, Eq, Debug, Drop)]
pub enum Sharing {
    Even,
    Weighted,
    ByNeed,
}

impl TryFrom<u8> for Sharing {
    type Error = Refusal;

    ghost try_from_gives = { λ letter sharing. sharing ≡ ok_or (sharing_of letter) ValueOutOfBounds };

    fn try_from(letter: u8) -> Result<Sharing, Refusal> {
        match letter as char {
            'e' => Ok(Sharing::Even),
            'w' => Ok(Sharing::Weighted),
            'n' => Ok(Sharing::ByNeed),
            _ => Err(Refusal::ValueOutOfBounds),
        }
    }
}
