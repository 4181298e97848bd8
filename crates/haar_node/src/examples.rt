//! The nodes of small trees, computed from the definitions. What is expected was worked out by hand.
ghost use Rattle.std.specs.Prelude.{◌≡◌, Some, None, pos, negsuc};
ghost use Rattle.tree_key.specs.Keys.{root};
ghost use Rattle.tree_model.specs.Nodes.{max_number, node, reconstructed_node, compressed_root, compressed_below, NumbersFit};
ghost use Rattle.tree_model.specs.Nodes.Form.{Reconstructed, Compressed};
ghost use Rattle.tree_model.specs.Nodes.Node.{Leaf, Branch, Inner, Root, Bare, Bad};
ghost use Rattle.haar_node.specs.Node.{node_of};
ghost use Rattle.haar_node.specs.NodeExamples.{uneven, single, left, right, third_cell, fourth_cell};
ghost use Rattle.haar_node.specs.declared.node.Node.TheVariants.{Leaf as StoredLeaf, Branch as StoredBranch, Inner as StoredInner, Root as StoredRoot, Bare as StoredBare, Bad as StoredBad};

/// Each kind of a stored node is read as the same kind, with its numbers in their places.
pub fn stored_nodes()
    ensures leaf { node_of (StoredLeaf (negsuc 2)) ≡ Leaf (negsuc 2) }
    ensures branch { node_of StoredBranch ≡ Branch }
    ensures inner { node_of (StoredInner (negsuc 2)) ≡ Inner (negsuc 2) }
    ensures root { node_of (StoredRoot (pos 15) (Some (negsuc 4))) ≡ Root (pos 15) (Some (negsuc 4)) }
    ensures root_alone { node_of (StoredRoot (pos 14) None) ≡ Root (pos 14) None }
    ensures bare { node_of StoredBare ≡ Bare }
    ensures bad { node_of StoredBad ≡ Bad }
{}

/// In the reconstructed form a leaf has the sum over its box, and another key has no number.
pub fn reconstructed_nodes()
    ensures leaf { reconstructed_node uneven left ≡ Leaf (pos 10) }
    ensures cell { reconstructed_node uneven third_cell ≡ Leaf (pos 2) }
    ensures branch { reconstructed_node uneven right ≡ Branch }
    ensures root { node Reconstructed uneven root ≡ Branch }
    ensures below { node Reconstructed uneven fourth_cell ≡ Leaf (pos 3) }
    ensures root_alone { node Reconstructed single root ≡ Leaf (pos 14) }
{}

/// In the compressed form the root has the sum over all cells, and each key with children has the sum over its left half
/// less the sum over its right half.
pub fn compressed_nodes()
    ensures root { compressed_root uneven root ≡ Root (pos 15) (Some (pos 5)) }
    ensures root_alone { compressed_root single root ≡ Root (pos 14) None }
    ensures inner { compressed_below uneven right ≡ Inner (negsuc 0) }
    ensures leaf { compressed_below uneven left ≡ Bare }
    ensures at_root { node Compressed uneven root ≡ Root (pos 15) (Some (pos 5)) }
    ensures below_root { node Compressed uneven right ≡ Inner (negsuc 0) }
    ensures cell { node Compressed uneven third_cell ≡ Bare }
{}

/// The numbers of a node go up to two to the 41, in absolute value, and each of them counts.
pub fn numbers_at_the_limit()
    ensures leaf { NumbersFit (Leaf (pos 2199023255552)) }
    ensures leaf_above { NumbersFit (Leaf (pos 2199023255553)) → ⊥ }
    ensures inner { NumbersFit (Inner (negsuc 2199023255551)) }
    ensures inner_below { NumbersFit (Inner (negsuc 2199023255552)) → ⊥ }
    ensures root { NumbersFit (Root (pos 2199023255552) (Some (negsuc 2199023255551))) }
    ensures sum_above { NumbersFit (Root (pos 2199023255553) None) → ⊥ }
    ensures difference_below { NumbersFit (Root (pos 0) (Some (negsuc 2199023255552))) → ⊥ }
{}
