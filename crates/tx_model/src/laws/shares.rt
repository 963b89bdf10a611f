//! Facts about the shares of passes, each the contract of a function that does nothing.
ghost use Rattle.tx_model.specs.ShareLaws.{SplitApart, SplitOthers, JoinedApart, JoinedOthers, JoinedNormal, JoinedNotEmpty, HalvesNormal, HalvesNotEmpty, Rejoined, WholeAlone};
ghost use Rattle.tx_model.specs.ShareLaws.{SplitExample, RejoinedExample, SplitAgainExample, ThreePartsExample, TwoPartsExample, HalfExample};

/// The halves of a share are apart from each other, and from what the share is apart from.
pub fn split_shares()
    ensures apart { SplitApart }
    ensures others { SplitOthers }
    ensures normal { HalvesNormal }
    ensures not_empty { HalvesNotEmpty }
{}

/// Two shares that are apart, as one.
pub fn joined_shares()
    ensures apart { JoinedApart }
    ensures others { JoinedOthers }
    ensures normal { JoinedNormal }
    ensures not_empty { JoinedNotEmpty }
{}

/// A share that was split is what it was once its halves are joined.
pub fn rejoined_share()
    ensures { Rejoined }
{}

/// Whoever has the whole is alone.
pub fn whole_share()
    ensures { WholeAlone }
{}

/// The whole is split and joined.
pub fn share_examples()
    ensures split { SplitExample }
    ensures rejoined { RejoinedExample }
    ensures split_again { SplitAgainExample }
    ensures three_parts { ThreePartsExample }
    ensures two_parts { TwoPartsExample }
    ensures half { HalfExample }
{}
