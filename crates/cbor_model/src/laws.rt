//! The laws, each of which is the contract of a function that does nothing.
ghost use Rattle.cbor_model.specs.Laws.{ReaderFinds, ReaderAccepts, SameWithScratch, ScratchNeed};
ghost use Rattle.cbor_model.specs.Laws.{OneSpelling, ValueIsStorable, OrderIsTotal, OneFlat};
ghost use Rattle.cbor_model.specs.Laws.{CanonicalReadsBack, ValueIsCanonical, NormalisedOnce};
ghost use Rattle.cbor_model.specs.Laws.{EqualBytes, ByteOrder, LeastSpelling, ValueIsInRange};
ghost use Rattle.cbor_model.specs.Laws.{FirstRefusal, NoneAllowed, OneFirstRefusal, ReadOrRefused};
ghost use Rattle.cbor_model.specs.Laws.{SpelledAllowsNone, SameFirstRefusal, InMemoryIsInRange};
ghost use Rattle.cbor_model.specs.Laws.{CanonicalIsAcceptable, WrittenReadsBack, LastPairStays};
ghost use Rattle.cbor_model.specs.Laws.{PartsBytes, KeyRule, FollowingIsUnread, AllThatFitIsHeld};
ghost use Rattle.cbor_model.specs.Laws.{RefusedHoldsBeginning, StoredOrStops, AllIsStored};
ghost use Rattle.cbor_model.specs.Laws.{DocumentIsAcceptable, DocumentReadsBack};

/// What the reference reader reads is the value of an acceptable item, and the bytes are its
/// encoding.
pub fn reader_finds()
    ensures { ReaderFinds }
{}

/// The reference reader reads the encoding of each acceptable item, as the item's value.
pub fn reader_accepts()
    ensures { ReaderAccepts }
{}

/// With a scratch, into which the chunks of a string are joined, the reference reader gives what
/// it does without one, value or fault, or finds the scratch too small.
pub fn same_with_scratch()
    ensures { SameWithScratch }
{}

/// The scratch's need is exact: an acceptable item is read where the scratch is at least as long as
/// the longest of its strings in chunks, and where it is shorter the scratch is too small.
pub fn scratch_need()
    ensures { ScratchNeed }
{}

/// No well-formed item's encoding begins another's, and equal encodings are equal items.
pub fn one_spelling()
    ensures { OneSpelling }
{}

/// Each integer in the value of a well-formed item is from -2^64 to 2^64 - 1.
pub fn value_is_storable()
    ensures { ValueIsStorable }
{}

/// The order of values is total, as a `BTreeMap` asks it of its keys.
pub fn order_is_total()
    ensures { OrderIsTotal }
{}

/// Values whose lists of numbers are equal are equal, so no two values compare alike.
pub fn one_flat()
    ensures { OneFlat }
{}

/// The canonical item of an ordered value has that value, so an ordered value is the value of an
/// item.
pub fn canonical_reads_back()
    ensures { CanonicalReadsBack }
{}

/// The value of an acceptable item in fewer than 2^64 bytes is storable and ordered, and its
/// canonical item is acceptable within the same levels.
pub fn value_is_canonical()
    ensures { ValueIsCanonical }
{}

/// Of what is read, the canonical encoding is read as the same value again: normalising twice is
/// once.
pub fn normalised_once()
    ensures { NormalisedOnce }
{}

/// Equal canonical encodings are equal values, so the bytes can stand for the value, as a key,
/// under a signature or in a hash. The values are storable and in range (each length, count and
/// tag number is below 2^64), at any depth.
pub fn equal_bytes()
    ensures { EqualBytes }
{}

/// Comparing two values is comparing their canonical encodings byte by byte, so what is sorted by
/// its bytes is sorted by its value. The values are storable and in range, at any depth.
pub fn byte_order()
    ensures { ByteOrder }
{}

/// No encoding of definite lengths is shorter than its value's canonical one, whatever its heads,
/// the order of its pairs and the keys that it says twice. One of indefinite length can be shorter:
/// its break takes one byte, where a count of 256 takes two after the first.
pub fn least_spelling()
    ensures { LeastSpelling }
{}

/// In the value of a well-formed item in fewer than 2^64 bytes each length, count and tag number is
/// below 2^64, so that the laws on bytes hold of all that is read.
pub fn value_is_in_range()
    ensures { ValueIsInRange }
{}

/// What the reference reader refuses, it refuses by the first refusal that the bytes allow: the one
/// of the least place, where at one place the ends of input come last.
pub fn first_refusal()
    ensures { FirstRefusal }
{}

/// Where the reference reader reads a value, the bytes allow no refusal.
pub fn none_allowed()
    ensures { NoneAllowed }
{}

/// Bytes fewer than 2^64 that encode an acceptable item, whose chunks fit the scratch, allow no
/// refusal.
pub fn spelled_allows_none()
    ensures { SpelledAllowsNone }
{}

/// Bytes have one first refusal at the most: one code, at one offset.
pub fn one_first_refusal()
    ensures { OneFirstRefusal }
{}

/// With a scratch the first refusal is that the scratch is too small, or the first without one.
pub fn same_first_refusal()
    ensures { SameFirstRefusal }
{}

/// Each input encodes one acceptable item, whose chunks fit the scratch, or has a first refusal.
pub fn read_or_refused()
    ensures { ReadOrRefused }
{}

/// What any value in a program stands for is in range, so that the laws on bytes hold of it.
pub fn in_memory_is_in_range()
    ensures { InMemoryIsInRange }
{}

/// The canonical item of any storable value in a program is well formed, its texts are UTF-8, and
/// it is acceptable within the levels that it nests.
pub fn canonical_is_acceptable()
    ensures { CanonicalIsAcceptable }
{}

/// The canonical encoding of any storable ordered value in a program, which nests at most 127
/// levels, is read as that value.
pub fn written_reads_back()
    ensures { WrittenReadsBack }
{}

/// The item of a document that is storable and in range, as all that is written is, is acceptable
/// within as many levels as it nests, in the packed and the legacy form too.
pub fn document_is_acceptable()
    ensures { DocumentIsAcceptable }
{}

/// What is written of such a document, where it nests at most 127 levels, is read as its item's
/// value.
pub fn document_reads_back()
    ensures { DocumentReadsBack }
{}

/// In the value of a map each key has the value of the last pair with that key, as keys are
/// compared by their values.
pub fn last_pair_stays()
    ensures { LastPairStays }
{}

/// The bytes of a document's parts, as a serializer's calls append them one after the other, are
/// the document's bytes.
pub fn parts_bytes()
    ensures { PartsBytes }
{}

/// The reference reader, where some formats of keys are read, reads exactly the acceptable items
/// whose keys are all of these formats: it asks the first byte of each key, and the definition its
/// kind.
pub fn key_rule()
    ensures { KeyRule }
{}

/// What follows an item is left unread, whatever it is.
pub fn following_is_unread()
    ensures { FollowingIsUnread }
{}

/// A slice that takes whole pieces, up to the first that doesn't fit, holds a prefix of them
/// all.
pub fn refused_holds_beginning()
    ensures { RefusedHoldsBeginning }
{}

/// A slice that is as long as all pieces holds them all.
pub fn all_that_fit_is_held()
    ensures { AllThatFitIsHeld }
{}

/// A document is storable, or has a first number that isn't stored, before which some bytes stand.
pub fn stored_or_stops()
    ensures { StoredOrStops }
{}

/// A storable document has no number that isn't stored.
pub fn all_is_stored()
    ensures { AllIsStored }
{}
