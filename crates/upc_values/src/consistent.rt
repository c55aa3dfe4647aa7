//! Laws: the orders of every journal are consistent, and pending writes have different locations.

ghost use Rattle.upc_values.specs.code.Apart.{PendingApart};
ghost use Rattle.upc_values.specs.Consistent.{AreConsistent};

/// A law (UPC Appendix B): where a journal's history takes each record as its write buffer drains, and is legal from an
/// opening, the strict order and the thread orders make its operations UPC consistent.
pub fn orders_are_consistent()
    ensures { AreConsistent }
{}

/// A law: no two pending writes of a thread have one location, after whatever items.
pub fn pending_locations_differ()
    ensures { PendingApart }
{}
