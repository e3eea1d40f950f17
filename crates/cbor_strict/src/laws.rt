//! Laws about departures, which are the contracts of functions that do nothing.
ghost use Rattle.cbor_strict.specs.Strict.{FirstShownIsFirst, KeysCompareByBytes};
ghost use Rattle.cbor_strict.specs.Strict.{NoneWhereCanonical};
ghost use Rattle.cbor_strict.specs.StrictRefusals.{OneFirstStrictRefusal};

/// An acceptable item departs nowhere from the canonical form exactly where its encoding is the
/// canonical one of its value.
pub fn none_where_canonical()
    ensures { NoneWhereCanonical }
{}

/// Keys without departures compare by their bytes as their values do.
pub fn keys_compare_by_bytes()
    ensures { KeysCompareByBytes }
{}

/// The first departure that an item's encoding shows is the item's first.
pub fn first_shown_is_first()
    ensures { FirstShownIsFirst }
{}

/// No bytes have two first refusals of strict reading.
pub fn one_first_strict_refusal()
    ensures { OneFirstStrictRefusal }
{}
