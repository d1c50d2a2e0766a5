//! Laws of the definitions that the contracts cite: each is proved, since this function promises it.
ghost use Rattle.layers.specs.Piles.{AlikeAgree, PilesLawful};

/// Promises that piles of the same analysis, layers, order, settings and pairs give every question the same verdict,
/// and that every pile keeps the four laws; it does nothing.
pub fn alike_piles_agree()
    ensures agree { AlikeAgree }
    ensures lawful { PilesLawful }
{}
