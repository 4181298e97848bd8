//! What holds of sums, differences and inner products: each function's contract is a law, and its body is empty.
ghost use Rattle.tree_model.specs.Laws.{SumsSplit, LeavesHaveOneValue, InnerPartsFollowKeys, ProductLaw, NodesFit, TreeSumsFit, InnerPartsFit};
ghost use Rattle.haar_node.specs.Combinations.{LeavesGiveTheirValues};

/// Above the depth, the sum over a key's box is the sum over its left half and the sum over its right half together. So
/// [`join`](crate::join) of the sums of two halves gives the sum and the difference of the key, and
/// [`split`](crate::split) of those gives the sums of the halves.
pub fn sums_split()
    ensures { SumsSplit }
{}

/// The sum over the box of a leaf is its width times the value that each of its cells has. So
/// [`combine_mul`](crate::combine_mul) may be given the sums of two trees on a box where both have one value.
pub fn leaves_have_one_value()
    ensures sum { LeavesHaveOneValue }
    ensures value { LeavesGiveTheirValues }
{}

/// Where a key has children in both trees, the differences there and below add the product of the two differences and
/// twice what its children add, as [`combine_inner`](crate::combine_inner) returns. At each other key they add nothing.
pub fn inner_parts_follow()
    ensures { InnerPartsFollowKeys }
{}

/// The product law: for any two trees of one depth, the product of the sums over all cells, and what the differences
/// add, is the sum of the products of the values times the number of the cells.
pub fn product_law()
    ensures { ProductLaw }
{}

/// The numbers of trees whose values are within the limit meet what nodes, [`join`](crate::join) and
/// [`split`](crate::split), [`combine_inner`](crate::combine_inner) and [`finish_inner`](crate::finish_inner) ask of them.
pub fn numbers_fit()
    ensures nodes { NodesFit }
    ensures sums { TreeSumsFit }
    ensures parts { InnerPartsFit }
{}
