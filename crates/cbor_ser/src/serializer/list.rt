//! Writing the items of lists and sets and the entries of maps, each head and item as directly as a
//! value's.

ghost use Rattle.std.specs.Prelude.{Some};
ghost use Rattle.cbor_model.specs.Document.{declared, sequence, mapping, docs, doc_pairs};
ghost use Rattle.cbor_model.specs.Parts.{item, items, pairs, ending};
ghost use Rattle.cbor_ser.specs.Serialized.{Serialized, Stepped};

use super::Serializer;
use crate::items::{WriteDone, answer};
use crate::serialize::Serialize;
use cbor_io::error::{Error, Result};
use cbor_io::write::Write;
use std::collections::{BTreeMap, BTreeSet};

impl<W: Write> Serializer<W> {
    // Appends the items of a list as a sequence.
    pub(crate) fn write_sequence<T: Serialize>(&mut self, list: &[T]) -> Result<()>
        ensures { Serialized W.written W.refuses W.references W.capacity self.old
            (item (sequence declared (docs T.document list.now))) self.new result }
    {
        let mut refusal = None;
        let done = self.sequence_step(list, &mut refusal);
        answer(done, refusal)
    }

    // The same as a step.
    pub(crate) fn sequence_step<T: Serialize>(
        &mut self,
        list: &[T],
        refusal: &mut Option<Error>,
    ) -> WriteDone
        ensures { Stepped W.written W.refuses W.references W.capacity self.old
            (item (sequence declared (docs T.document list.now))) self.new result refusal.new }
    {
        self.array_step(list.len(), refusal)?;
        self.items_step(list, refusal)
    }

    // Appends the items of a list, one after the other.
    fn items_step<T: Serialize>(&mut self, list: &[T], refusal: &mut Option<Error>) -> WriteDone
        ensures { Stepped W.written W.refuses W.references W.capacity self.old
            (items (docs T.document list.now) (ending (Some 0))) self.new result refusal.new }
    {
        for one in list {
            one.serialize_step(self, refusal)?;
        }
        Ok(())
    }

    // Appends the items of a set as a sequence, in their order.
    pub(crate) fn write_set<T: Serialize + Ord>(&mut self, set: &BTreeSet<T>) -> Result<()>
        ensures { Serialized W.written W.refuses W.references W.capacity self.old
            (item (sequence declared (docs T.document set.now.keys))) self.new result }
    {
        let mut refusal = None;
        let done = self.set_step(set, &mut refusal);
        answer(done, refusal)
    }

    // The same as a step.
    pub(crate) fn set_step<T: Serialize + Ord>(
        &mut self,
        set: &BTreeSet<T>,
        refusal: &mut Option<Error>,
    ) -> WriteDone
        ensures { Stepped W.written W.refuses W.references W.capacity self.old
            (item (sequence declared (docs T.document set.now.keys))) self.new result refusal.new }
    {
        self.array_step(set.len(), refusal)?;
        self.members_step(set, refusal)
    }

    // Appends the items of a set, one after the other.
    fn members_step<T: Serialize + Ord>(
        &mut self,
        set: &BTreeSet<T>,
        refusal: &mut Option<Error>,
    ) -> WriteDone
        ensures { Stepped W.written W.refuses W.references W.capacity self.old
            (items (docs T.document set.now.keys) (ending (Some 0))) self.new result refusal.new }
    {
        for one in set.iter() {
            one.serialize_step(self, refusal)?;
        }
        Ok(())
    }

    // Appends the entries of a map, in the order of their keys.
    pub(crate) fn write_mapping<K: Serialize + Ord, V: Serialize>(
        &mut self,
        map: &BTreeMap<K, V>,
    ) -> Result<()>
        ensures { Serialized W.written W.refuses W.references W.capacity self.old
            (item (mapping declared (doc_pairs K.document V.document map.now.entries)))
            self.new result }
    {
        let mut refusal = None;
        let done = self.mapping_step(map, &mut refusal);
        answer(done, refusal)
    }

    // The same as a step.
    fn mapping_step<K: Serialize + Ord, V: Serialize>(
        &mut self,
        map: &BTreeMap<K, V>,
        refusal: &mut Option<Error>,
    ) -> WriteDone
        ensures { Stepped W.written W.refuses W.references W.capacity self.old
            (item (mapping declared (doc_pairs K.document V.document map.now.entries)))
            self.new result refusal.new }
    {
        self.map_step(map.len(), refusal)?;
        self.entries_step(map, refusal)
    }

    // Appends keys and values, one after the other.
    fn entries_step<K: Serialize + Ord, V: Serialize>(
        &mut self,
        map: &BTreeMap<K, V>,
        refusal: &mut Option<Error>,
    ) -> WriteDone
        ensures { Stepped W.written W.refuses W.references W.capacity self.old
            (pairs (doc_pairs K.document V.document map.now.entries) (ending (Some 0)))
            self.new result refusal.new }
    {
        for (key, value) in map.iter() {
            key.serialize_step(self, refusal)?;
            value.serialize_step(self, refusal)?;
        }
        Ok(())
    }
}
