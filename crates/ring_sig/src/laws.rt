//! Facts about the definitions of `specs/`, each the contract of a function that does nothing.
ghost use Rattle.std.specs.Prelude.{◌≡◌, true, false, [], ◌∷◌};
ghost use Rattle.ring_sig.specs.Signature.{place_of, meets, signature_of};
ghost use Rattle.ring_sig.specs.Laws.{CommonAddressMeets, SignaturesMeet, CommonAddressMeet, NoCommonAddress, EmptySignature, SignatureGains, SignatureGainsLast, SignatureExists};

/// The places of some addresses among 64.
pub fn places_table()
    ensures zero { place_of 0 64 ≡ 0 }
    ensures one { place_of 1 64 ≡ 39 }
    ensures two { place_of 2 64 ≡ 15 }
    ensures three { place_of 3 64 ≡ 54 }
    ensures fifty_six { place_of 56 64 ≡ 39 }
{}

/// With 64 places, {1, 2} and {56} meet though they have no common address.
pub fn sharing_example()
    ensures { meets (signature_of 1 (1 ∷ 2 ∷ [])) (signature_of 1 (56 ∷ [])) ≡ true }
{}

/// With 64 places, {1, 2} and {3} do not meet.
pub fn disjoint_example()
    ensures { meets (signature_of 1 (1 ∷ 2 ∷ [])) (signature_of 1 (3 ∷ [])) ≡ false }
{}

/// Signatures of sets with a common address share a place.
pub fn common_address_meets()
    ensures { CommonAddressMeets }
{}

/// The test on signatures says whether the sets of addresses meet.
pub fn signatures_meet()
    ensures { SignaturesMeet }
{}

/// Sets with a common address meet, and sets whose signatures share no place have none.
pub fn common_addresses()
    ensures meet { CommonAddressMeet }
    ensures none { NoCommonAddress }
{}

/// A signature stays one of its set as both gain an address.
pub fn signature_gains()
    ensures empty { EmptySignature }
    ensures front { SignatureGains }
    ensures last { SignatureGainsLast }
    ensures exists { SignatureExists }
{}
