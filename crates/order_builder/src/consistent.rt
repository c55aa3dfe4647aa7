//! The orders of every journal are consistent.

ghost use Rattle.order_builder.specs.Named.{LegalAreConsistent, SoundAreConsistent};

/// A law (UPC Appendix B): the orders that `orders` answers make a journal's operations UPC consistent, where its
/// history takes each record as its write buffer drains and is legal from an opening, and so where the journal is
/// sound.
pub fn answered_orders_are_consistent()
    ensures legal { LegalAreConsistent }
    ensures sound { SoundAreConsistent }
{}
