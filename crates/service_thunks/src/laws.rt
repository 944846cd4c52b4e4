//! Laws of the table of addresses.

ghost use Rattle.service_thunks.specs.Services.{OneAddress, ServiceAddresses};

/// A service that this firmware has is at one address.
pub fn one_address()
    ensures { OneAddress }
{}

/// There is a service for each entry of the two tables, and nowhere else.
pub fn service_addresses()
    ensures { ServiceAddresses }
{}
