//! The nodes of a store, and where each of them stands.
ghost use Rattle.std.specs.Prelude.{◌≡◌, ◌++◌, ◌∷◌, [], length, IfOk, IfSome, OnErr, None};
ghost use Rattle.std.specs.Hash as fed;
ghost use Rattle.nts_store.specs.Children.{listed};
ghost use Rattle.nts_store.specs.Words.{label_word, with_all};
ghost use Rattle.nts_store.specs.Index.{IsIndex, HasShape, HasShapeAt, number_in};
ghost use Rattle.nts_store.specs.Equal.{one_word};

use crate::children::Children;
use crate::nodes::Node;
use crate::words::word_of;
use nts_model::Label;
use std::alloc::{AllocError, Global};
use std::collections::HashMap;
use std::hash::{Hash, Hasher};

/// The label and the children of a node, by which it is found.
#[derive(PartialEq, Eq, Drop)]
pub(crate) struct Shape {
    pub label: Label,
    pub children: Children,
}

/// It is written as one number, where `derive` would write a dozen.
impl Hash for Shape {
    ghost hash_input = { λ s. fed.u64 (with_all (label_word s.label) (listed s.children)) };

    ghost respects_eq = { one_word };

    fn hash<H: Hasher>(&self, state: &mut H) {
        state.write_u64(word_of(self.label, self.children.as_slice()));
    }
}

/// Nodes in the order in which they were made, and the number of each by its shape.
#[derive(Drop)]
pub(crate) struct Index {
    pub nodes: Vec<Node>,
    numbers: HashMap<Shape, usize>,
}

impl Index {
    /// No nodes. It takes no memory.
    pub fn new(alloc: Global) -> Self
        ensures empty { result.nodes.items ≡ [] }
        ensures index { IsIndex result }
    {
        Index {
            nodes: Vec::new(alloc),
            numbers: HashMap::new(alloc),
        }
    }

    /// The number of the node of that shape.
    pub fn find(&self, shape: &Shape) -> Option<usize>
        requires { IsIndex self.now }
        ensures found { IfSome result (λ n. HasShapeAt self.now.nodes.items n shape.now) }
        ensures absent { result ≡ None → number_in self.now shape.now ≡ None }
    {
        self.numbers.get(shape).copied()
    }

    /// Adds a node whose shape is new, and answers its number.
    pub fn add(&mut self, shape: Shape, node: Node) -> Result<usize, AllocError>
        requires index { IsIndex self.old }
        requires shape { HasShape node shape }
        requires absent { number_in self.old shape ≡ None }
        ensures index { IsIndex self.new }
        ensures number { IfOk result (λ n. n ≡ length self.old.nodes.items) }
        ensures nodes { IfOk result (λ _. self.new.nodes.items ≡ self.old.nodes.items ++
            node ∷ []) }
        ensures err { OnErr result (self.new.nodes.items ≡ self.old.nodes.items) }
    {
        let number = self.nodes.len();
        self.nodes.reserve(1)?;
        self.numbers.insert(shape, number)?;
        // There is room for it.
        let _ = self.nodes.push(node);
        Ok(number)
    }
}
