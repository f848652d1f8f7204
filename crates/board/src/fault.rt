// Why a call refuses, and where in a file.
ghost use Rattle.std.specs.Prelude.{◌≡◌, Some};
ghost use Rattle.board.specs.Refusals.{number_of, layer_of, layer_number, fault_at, fault_text};

use std::error::Error;
use std::fmt;

#[derive(Clone, Copy, PartialEq, Eq, Debug, Drop)]
pub enum Refusal {
    FileTooLong = 1,
    RecordCutShort,
    UnknownKind,
    KindOutOfTurn,
    WrongLength,
    NumberOutOfTurn,
    ValueOutOfBounds,
    BadName,
    SizesDiffer,
    WrongCount,
    BytesAfterEnd,
    NoSuchTaskOrCore,
    AmountTooLarge,
    SlotsOverNeed,
    CoreOverCapacity,
    NoPairLeft,
    CannotBeMade,
    RouteListTooShort,
    OutputTooShort,
}

// Who refuses.
#[derive(Clone, Copy, PartialEq, Eq, Debug, Drop)]
pub enum Layer {
    File = 1,
    Board,
    Judge,
}

impl Refusal {
    // The number in the table of refusals.
    pub fn number(self) -> u8
        ensures { result ≡ number_of self }
    {
        self as u8
    }

    pub fn layer(self) -> Layer
        ensures { layer_number result ≡ layer_of self }
    {
        match self {
            Refusal::NoSuchTaskOrCore
            | Refusal::AmountTooLarge
            | Refusal::SlotsOverNeed
            | Refusal::CoreOverCapacity
            | Refusal::NoPairLeft
            | Refusal::CannotBeMade => Layer::Board,
            Refusal::RouteListTooShort => Layer::Judge,
            _ => Layer::File,
        }
    }

    pub fn at(self, place: usize) -> Fault
        ensures { result ≡ fault_at self place }
    {
        Fault {
            refusal: self,
            place,
        }
    }
}

// A refusal with its place: a byte of the file where one is read, and else 0.
#[derive(Clone, Copy, PartialEq, Eq, Debug, Drop)]
pub struct Fault {
    pub refusal: Refusal,
    pub place: usize,
}

// A fault is told by numbers, in the report and to C: they are those of the table of refusals.
impl Fault {
    pub fn number(self) -> u8
        ensures { result ≡ number_of self.refusal }
    {
        self.refusal.number()
    }

    pub fn layer(self) -> u8
        ensures { result ≡ layer_of self.refusal }
    {
        self.refusal.layer() as u8
    }
}

impl fmt::Display for Fault {
    ghost output = { λ fault. Some (fault_text fault) };

    fn fmt<W: fmt::Write>(&self, f: &mut fmt::Formatter<W>) -> fmt::Result {
        let number = self.number();
        let layer = self.layer();
        let place = self.place;
        write!(f, "refused {number} layer {layer} place {place}")
    }
}

impl Error for Fault {}
