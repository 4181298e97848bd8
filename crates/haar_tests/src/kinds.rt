//! Each kind of value and of node, and what a unit does on its inputs.

use app_core::{App, Inputs, LentEffect};
use haar_app::{HaarApp, Lines, Unit, Value};
use haar_node::{Coefficient, Node};
use job_data::TreeForm;
use std::alloc::Global;
use std::test::Fail;
use tree_key::Text;

/// A kind of what a future has.
#[derive(Clone, Copy, Debug, PartialEq, Eq)]
pub enum ValueKind {
    Done,
    Sum,
    Product,
    Lines,
    Count,
    Bad,
}

/// Every kind of value.
pub const VALUE_KINDS: [ValueKind; 6] = [
    ValueKind::Done,
    ValueKind::Sum,
    ValueKind::Product,
    ValueKind::Lines,
    ValueKind::Count,
    ValueKind::Bad,
];

impl ValueKind {
    /// A value of the kind. Its numbers are such that a unit can go on with two of them.
    pub fn value(self, alloc: Global) -> Result<Value, Fail> {
        match self {
            ValueKind::Done => Ok(Value::Done),
            ValueKind::Sum => Ok(Value::Sum(8)),
            ValueKind::Product => Ok(Value::Product(2)),
            ValueKind::Lines => {
                let mut text = Text::new(alloc);
                text.add(b"1 0 8\n")?;
                Ok(Value::Lines(Lines::of_text(alloc, text)?))
            }
            ValueKind::Count => Ok(Value::Count(3)),
            ValueKind::Bad => Ok(Value::Bad),
        }
    }
}

/// A kind of node; `RootAlone` is the root of a compressed tree without children.
#[derive(Clone, Copy, Debug, PartialEq, Eq)]
pub enum NodeKind {
    Leaf,
    Branch,
    Inner,
    Root,
    RootAlone,
    Bare,
    Bad,
}

/// Every kind of node.
pub const NODE_KINDS: [NodeKind; 7] = [
    NodeKind::Leaf,
    NodeKind::Branch,
    NodeKind::Inner,
    NodeKind::Root,
    NodeKind::RootAlone,
    NodeKind::Bare,
    NodeKind::Bad,
];

impl NodeKind {
    /// A node of the kind. Its numbers are such that a unit can go on with it.
    pub fn node(self) -> Node {
        match self {
            NodeKind::Leaf => Node::Leaf(Coefficient::new(8)),
            NodeKind::Branch => Node::Branch,
            NodeKind::Inner => Node::Inner(Coefficient::new(4)),
            NodeKind::Root => Node::Root(Coefficient::new(8), Some(Coefficient::new(4))),
            NodeKind::RootAlone => Node::Root(Coefficient::new(8), None),
            NodeKind::Bare => Node::Bare,
            NodeKind::Bad => Node::Bad,
        }
    }

    /// Whether a tree of this form may have such a node at its root, or below it.
    pub fn is_of(self, form: TreeForm, root: bool) -> bool {
        match self {
            NodeKind::Leaf | NodeKind::Branch => form == TreeForm::Reconstructed,
            NodeKind::Root | NodeKind::RootAlone => form == TreeForm::Compressed && root,
            NodeKind::Inner | NodeKind::Bare => form == TreeForm::Compressed && !root,
            NodeKind::Bad => false,
        }
    }

    /// The kind of a leaf of a tree of this form, at its root or below it.
    pub fn leaf(form: TreeForm, root: bool) -> NodeKind {
        match form {
            TreeForm::Reconstructed => NodeKind::Leaf,
            TreeForm::Compressed => {
                if root {
                    NodeKind::RootAlone
                } else {
                    NodeKind::Bare
                }
            }
        }
    }

    /// The kind of a node with children of a tree of this form, at its root or below it.
    pub fn with_children(form: TreeForm, root: bool) -> NodeKind {
        match form {
            TreeForm::Reconstructed => NodeKind::Branch,
            TreeForm::Compressed => {
                if root {
                    NodeKind::Root
                } else {
                    NodeKind::Inner
                }
            }
        }
    }
}

/// How many effects of each sort a step has.
#[derive(Clone, Copy, Debug, PartialEq, Eq)]
pub struct Outcome {
    /// Gives of `Bad` to the unit's own due.
    pub bad_dues: u32,

    /// Puts of a bad node.
    pub bad_nodes: u32,

    /// All others.
    pub others: u32,
}

/// The outcome of a unit that can't go on: it gives its due `Bad`, and puts a bad node if its command writes one then.
pub fn refused(writes: bool) -> Outcome {
    Outcome {
        bad_dues: 1,
        bad_nodes: u32::from(writes),
        others: 0,
    }
}

/// What a unit does on these inputs.
pub fn outcome_of(
    alloc: Global,
    app: &HaarApp,
    unit: Unit,
    values: Vec<Value>,
    cells: Vec<Node>,
) -> Result<Outcome, Fail> {
    let due = app.due(&unit);
    let mut effects = app.step(alloc, unit, Inputs::new(values, cells, 5))?;
    let mut queue = effects.queue();
    let (mut bad_dues, mut bad_nodes, mut others) = (0u32, 0u32, 0u32);
    while let Some(effect) = queue.take_first() {
        match effect {
            LentEffect::Give(future, Value::Bad) => {
                if Some(future) == due {
                    bad_dues = bad_dues.saturating_add(1);
                } else {
                    others = others.saturating_add(1);
                }
            }
            LentEffect::Put(_, Node::Bad) => bad_nodes = bad_nodes.saturating_add(1),
            _ => others = others.saturating_add(1),
        }
    }
    Ok(Outcome {
        bad_dues,
        bad_nodes,
        others,
    })
}
