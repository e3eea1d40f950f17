//! Laws about what is read, which are the contracts of functions that do nothing.
ghost use Rattle.cbor_de.specs.Alike.{SourcesAgree, OwnedAgree};
ghost use Rattle.cbor_de.specs.ContentTaken.{NewtypeTaken, PartTaken, UnitTaken};
ghost use Rattle.cbor_de.specs.FirstOfItem.{FirstIsFault, ItemRefusedFirst};
ghost use Rattle.cbor_de.specs.ItemTaken.{ItemTaken};
ghost use Rattle.cbor_de.specs.HeadsTaken.{HeadsTaken};
ghost use Rattle.cbor_de.specs.PartTaken.{ArrayEndTaken, ElementTaken, KeyTaken, MapEndTaken};
ghost use Rattle.cbor_de.specs.TagTaken.{TagTaken};
ghost use Rattle.cbor_de.specs.VariantTaken.{TupleTaken, VariantTaken};
ghost use Rattle.cbor_decode.specs.declared.head.Head.TheVariants.{Array, Map};

use crate::deserialize::{DeserializeOwned, Readable};
use cbor_model::{first_refusal, none_allowed, one_first_refusal};

/// Two readings of one input as a `Value` answer alike, whatever their sources: the same value; or
/// errors of one code at one offset, since there is one first refusal. Only lack of memory, a
/// reader's fault and a scratch that is too small are of a source alone.
///
/// A caller gives it the answers of two `from_*` of the same bytes (`IsReading`); the published
/// fact `reading` makes that of the clauses `found` and `first` of a call from a slice, and
/// `reading_of_reader` of those of a call from a reader.
pub fn sources_agree()
    ensures { SourcesAgree }
{}

/// Two readings of one input as a type that borrows nothing agree, whatever their sources lend: one
/// item is read as both answers, or both refuse. So a slice and one that is rewritten in place give
/// the same, lack of memory aside.
///
/// A caller gives it the answers of two `from_*` of the same bytes (`IsReadingAs`), which the
/// clauses `found` and `accepted` of each say.
pub fn owned_agree<T: DeserializeOwned>()
    ensures { OwnedAgree T.reads }
{}

/// Where a type that reads every item, as `Value`, is refused by `deserialize` in all formats, the
/// error reports the first refusal that the bytes to come allow within the levels that are left, at
/// whatever nesting limit; or memory ran out, or the source reported a fault.
///
/// A caller gives it the clause `fault` of `deserialize`.
pub fn item_refused_first<T: Readable>()
    ensures { ItemRefusedFirst T.total }
{}

/// An error of a whole input that reports the first refusal that its bytes allow reports the fault
/// that the reference reader meets, by its code and at its offset.
///
/// A caller gives it the clause `first` of a `from_*`.
pub fn first_is_fault()
    ensures { FirstIsFault }
{
    first_refusal();
    one_first_refusal();
    none_allowed();
}

/// What `deserialize` takes, by the definitions alone. Ok: the bytes to come were the encoding of
/// an item that the type reads so, acceptable within the levels that are left and with keys of the
/// formats that are read, and then those that are still to come. Err: no such item is there whose
/// chunks fit the buffer; or memory ran out, or the source reported a fault.
///
/// A caller gives it the clause `read` of `deserialize`.
pub fn item_taken<T: Readable>()
    ensures { ItemTaken T.reads }
{}

/// What `array`, `map` and `structure` take, by the definitions alone. Ok: the bytes to come were
/// the heads of some tags, the head of an array (major type 4) or of a map (major type 5), and then
/// those that are still to come, whatever they are; each head took a level. Err: no such heads are
/// there for which the levels suffice; or memory ran out, or the source reported a fault.
///
/// A caller gives it the clauses `opened` and `unopened` of the call.
pub fn heads_taken()
    ensures arrays { HeadsTaken Array 4 }
    ensures maps { HeadsTaken Map 5 }
{}

/// What `read_tag` takes, by the definitions alone. Some: the bytes to come were the head of a tag
/// (major type 6) of that number, and then those that are still to come, and a level was left.
/// None: no tag's head begins, and nothing was taken. Err: the head that begins is cut off, or no
/// level is left for the item behind it; or memory ran out, or the source reported a fault.
///
/// A caller gives it the clause `read` of the call.
pub fn tag_taken()
    ensures { TagTaken }
{}

/// What `next_element` takes, by the definitions alone. Some: another item came of what remains, a
/// count or up to the break, and it was taken as `deserialize` takes one ([`item_taken`]). None:
/// the array ends here, and its break was taken, if it has one. Err: neither is here; or memory ran
/// out, or the source reported a fault.
///
/// A caller gives it the clause `read` of the call.
pub fn element_taken<T: Readable>()
    ensures { ElementTaken T.reads }
{}

/// What `next_key` takes, by the definitions alone, as [`element_taken`] says it of an item: a key
/// that is taken begins as one of a format that is read. `next_value` takes what `deserialize`
/// does.
///
/// A caller gives it the clause `read` of the call.
pub fn key_taken<K: Readable>()
    ensures { KeyTaken K.reads }
{}

/// What the `end` of an array and of a map takes, by the definitions alone. Ok: none remains of a
/// count, and nothing was taken; or the break of an indefinite length was. Err: no such end is
/// here; or memory ran out, or the source reported a fault.
///
/// A caller gives it the clause `read` of the call.
pub fn end_taken()
    ensures arrays { ArrayEndTaken }
    ensures maps { MapEndTaken }
{}

/// What `variant` takes, by the definitions alone. Ok: the bytes to come were the heads of some
/// tags, each a level further in, and then an enum in a form that is read, up to the identifier of
/// the variant in this place, a number or a name: an array that begins with it, a map of one pair
/// whose key it is, or the identifier alone; and then those that are still to come, whatever they
/// are. Err: no enum begins so whose identifier's chunks fit the buffer; or memory ran out, or the
/// source reported a fault.
///
/// A caller gives it the clauses `opened` and `unopened` of the call.
pub fn variant_taken()
    ensures { VariantTaken }
{}

/// What `unit` takes of a variant, by the definitions alone. Ok: nothing after an identifier alone;
/// in a map null or undefined, within tags; in an array the same, as its last item, and its break,
/// if it has one. Err: no such content is there; or memory ran out, or the source reported a fault.
///
/// A caller gives it the clause `read` of the call.
pub fn variant_unit_taken()
    ensures { UnitTaken }
{}

/// What `newtype` and `structure` take of a variant, by the definitions alone. Ok: an item, as
/// `deserialize` takes one ([`item_taken`]), and in an array, whose last item it is, its break, if
/// it has one. Err: no such content is there whose chunks fit the buffer, and none after an
/// identifier alone; or memory ran out, or the source reported a fault.
///
/// A caller gives it the clause `read` of the call.
pub fn variant_newtype_taken<T: Readable>()
    ensures { NewtypeTaken T.reads }
{}

/// What `tuple` takes of a variant, by the definitions alone. Ok: nothing of an array, of which the
/// items after the identifier are the parts; in a map the heads of some tags and the head of an
/// array, as `array` takes them ([`heads_taken`]). Err: no array is there for which the levels
/// suffice, and none after an identifier alone; or memory ran out, or the source reported a fault.
///
/// A caller gives it the clauses `opened` and `unopened` of the call. The parts end as any array
/// ([`end_taken`]).
pub fn variant_tuple_taken()
    ensures { TupleTaken }
{}

/// What `part` takes, by the definitions alone. Ok: another item came of what remains, a count or
/// up to the break, and it was taken as `deserialize` takes one ([`item_taken`]). Err: no item
/// comes that the type reads, whose chunks fit the buffer; or memory ran out, or the source
/// reported a fault.
///
/// A caller gives it the clause `read` of the call.
pub fn part_taken<T: Readable>()
    ensures { PartTaken T.reads }
{}
