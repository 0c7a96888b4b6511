//! Theorems about texts, as clauses of functions that do nothing.
ghost use Rattle.std.specs.Prelude.{◌≡◌, Some};
ghost use Rattle.book_base.specs.declared.address.Address.{Address};
ghost use Rattle.book_scope_texts.specs.Addresses.{IsAddress, usual_address_of, usual_address_text};

/// An address as it is written is read as that address.
pub fn addresses_are_read_back()
    ensures { (address : Address) → IsAddress address → usual_address_of (usual_address_text address) ≡ Some address }
{}
