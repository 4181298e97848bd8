//! The calls at one key.
use crate::OwnerMap;
use tree_key::Key;

#[test]
fn words_name_maps_and_maps_name_owners(rt: HostRuntime) {
    let key = Key::root()
        .child(false)
        .child(true)
        .child(false)
        .child(true);
    let cases = [("block", 1), ("spread", 3), ("level", 2)];
    for (word, rank) in cases {
        let owner = OwnerMap::of_word(word.as_bytes()).map(|map| map.owner(key, 5));
        assert_eq!(rt; owner, Some(rank), "{word}");
    }
    assert_eq!(rt; OwnerMap::of_word(b"blocks"), None);
}
