// What an order file is: the encoding of an order, and what reading any bytes comes to; and the laws that join the two.
#![tactic(auto)]

ghost use Rattle.orders.specs.Laws.{ReadingLawful, EncodingsRead};

// A file is accepted just where it is the encoding of an order that the board can hold.
pub fn reading_is_lawful()
    ensures { ReadingLawful }
{}

// The encoding of an order that the board can hold gives that order.
pub fn encodings_are_read()
    ensures { EncodingsRead }
{}
