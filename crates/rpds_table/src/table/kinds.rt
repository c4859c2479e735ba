//! What each kind of version does with an op, an edit and a question.
pub(crate) mod hash_trie_maps;
pub(crate) mod hash_trie_sets;
pub(crate) mod lists;
pub(crate) mod queues;
pub(crate) mod red_black_tree_maps;
pub(crate) mod red_black_tree_sets;
pub(crate) mod stacks;
pub(crate) mod vectors;
