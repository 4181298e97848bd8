//! Cut edges at single keys, and what counts come to. Maps of trees are counted in the tests of the evaluator.
use crate::{Distribution, ShapeCount, Total};
use owner_map::OwnerMap;
use tree_key::Key;

#[test]
fn cut_edges_at_keys(rt: HostRuntime) {
    let left = Key::root().child(false);
    let cases = [
        (OwnerMap::Block, 2, Key::root(), 0, 1),
        (OwnerMap::Block, 2, left, 0, 0),
        (OwnerMap::Block, 2, Key::root().child(true), 1, 0),
        (OwnerMap::Spread, 3, left, 1, 2),
        (OwnerMap::Spread, 3, left.child(false), 2, 2),
        (OwnerMap::Spread, 3, left.child(true), 1, 2),
        (OwnerMap::Level, 1, left.child(false), 0, 0),
    ];
    for (map, ranks, key, up, below) in cases {
        let distribution = Distribution { map, ranks };
        assert_eq!(rt; distribution.cuts_up(key), up, "up from {key}");
        assert_eq!(rt; distribution.cuts_below(key), below, "below {key}");
    }
}

#[test]
fn counts_come_to_totals(rt: HostRuntime) {
    // Seven keys, three of them with children; six edges.
    let seven = ShapeCount {
        interior: 3,
        cuts: 6,
    };
    let visits = Total::of_visits(seven);
    assert_eq!(rt;
        visits,
        Total {
            messages: 12,
            tasks: 10
        }
    );
    let size = Total::of_size(16);
    assert_eq!(rt;
        size,
        Total {
            messages: 30,
            tasks: 17
        }
    );
    assert_eq!(rt;
        visits.plus(size),
        Total {
            messages: 42,
            tasks: 27
        }
    );
    assert_eq!(rt; Total::nothing().plus(size), size);
}
