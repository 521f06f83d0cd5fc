ghost use Rattle.cspf_addr.specs.AddressOrder.{ComparesAsNumbers, PartlyComparesAsNumbers};

/// Law: addresses are ordered by their numbers.
pub fn addresses_compare_as_numbers()
    ensures order { ComparesAsNumbers }
    ensures partial { PartlyComparesAsNumbers }
{}
