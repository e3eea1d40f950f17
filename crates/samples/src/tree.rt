//! A type that contains itself. It writes its parts by their own type, and is read by way of a
//! value.

ghost use Rattle.std.specs.Prelude.{◌≡◌, codes, IfOk, IfErr, Some};
ghost use Rattle.serde_cbor.specs.Error.{code_of, offset_of, IsMessageOf};
ghost use Rattle.serde_cbor.specs.View.{view, views};
ghost use Rattle.samples.specs.Trees.{IsTree, AreTrees, RefusesTree, RefusesTrees};

use serde_cbor::de::{Deserialize, DeserializeOwned, Read, Readable};
use serde_cbor::ser::{Serialize, Serializer, Write};
use serde_cbor::{Deserializer, Error, Result, Value};
use std::alloc::Global;

/// A type that contains itself: a leaf is its number, and a node the list of what it holds.
#[derive(Debug, Drop)]
pub enum Tree {
    Leaf(i128),
    Node(Vec<Tree>),
}

impl Serialize for Tree {
    ghost use Rattle.serde_cbor.specs.Document.{Doc, integer, sequence, declared, docs};
    ghost use Rattle.samples.specs.declared.tree.Tree.{fold-Tree};
    ghost use Rattle.samples.specs.declared.tree.Tree.TheOpen.{Tree-F};

    // What the parts are written as stands in their places.
    ghost document = { fold-Tree Doc (elim [
      | Tree-F.Leaf n ↦ integer n
      | Tree-F.Node parts ↦ sequence declared (docs (λ d. d) parts.items)
    ]) };

    #[cycle(serialize)]
    fn serialize<W: Write>(&self, ser: &mut Serializer<W>) -> Result<()> {
        match self {
            Tree::Leaf(n) => n.serialize(ser),
            Tree::Node(parts) => parts.serialize(ser),
        }
    }
}

impl Readable for Tree {
    ghost use Rattle.serde_cbor.specs.Value.{value};

    ghost reads = { λ c r t. IsTree (value r) t };
}

impl<'de, R: Read<'de>> Deserialize<'de, R> for Tree {
    fn deserialize(de: &mut Deserializer<R>) -> Result<Tree> {
        let alloc = de.alloc();
        let value = Value::deserialize(de)?;
        tree_of(alloc, &value)
    }
}

impl DeserializeOwned for Tree {
    ghost same = { λ f a b r t h. h };
}

/// The tree that a value is.
#[cycle(tree_of)]
fn tree_of(alloc: Global, value: &Value) -> Result<Tree>
    ensures tree { IfOk result (IsTree (view value.now)) }
    ensures none { IfErr result (RefusesTree (view value.now)) }
{
    match value {
        Value::Integer(n) => Ok(Tree::Leaf(*n)),
        Value::Array(items) => Ok(Tree::Node(trees_of(alloc, items)?)),
        _ => Err(no_tree(alloc)),
    }
}

#[cycle(tree_of)]
fn trees_of(alloc: Global, items: &[Value]) -> Result<Vec<Tree>>
    ensures trees { IfOk result (λ ts. AreTrees (views items.now) ts.items) }
    ensures none { IfErr result (RefusesTrees (views items.now)) }
{
    let mut trees = Vec::with_capacity(alloc, items.len())?;
    for item in items {
        let tree = tree_of(alloc, item)?;
        trees.push(tree)?;
    }
    Ok(trees)
}

#[cold]
#[inline(never)]
fn no_tree(alloc: Global) -> Error
    ensures text { IsMessageOf (Some (codes "invalid type: expected a tree")) (code_of result) }
    ensures offset { offset_of result ≡ 0 }
{
    Error::message(alloc, "invalid type: expected a tree")
}
