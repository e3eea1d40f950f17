//! The laws, each of which is the contract of a function that does nothing.
ghost use Rattle.cbor_read.specs.Source.{Lends};
ghost use Rattle.cbor_decode_as.specs.Takes.{lending};
ghost use Rattle.cbor_de.specs.StreamAnswers.{StreamAnswers};
ghost use Rattle.cbor_de.specs.ItemLaws.{OneListOfItems, OneLongestList, AllAreMost};
ghost use Rattle.cbor_de.specs.ItemLaws.{HasLongestList};

use crate::Readable;

/// What a stream gives, over all calls of `next`: what each item is read as, of the longest list of
/// items at the front of the bytes that are acceptable within the stream's levels, and then None;
/// or, where something follows those, one error, and then None.
///
/// A type that reads every item, as `Value`, reports in that error the fault that stands there. A
/// type that doesn't read one of the items gives an error at it, and then None.
pub fn stream_answers<T: Readable>()
    ensures { (l : Lends) → StreamAnswers (λ f. T.reads (lending f l)) T.total }
{}

/// The bytes are the joined encodings of one list of items at most that are acceptable within so
/// many levels.
pub fn one_list_of_items()
    ensures { OneListOfItems }
{}

/// Of the lists of such items whose joined encodings are a front of the bytes, one is the longest.
pub fn one_longest_list()
    ensures { OneLongestList }
{}

/// A list whose joined encodings are all of the bytes is the longest.
pub fn all_are_most()
    ensures { AllAreMost }
{}

/// Fewer than 2^64 bytes have a longest such list, which may have no item.
pub fn has_longest_list()
    ensures { HasLongestList }
{}
