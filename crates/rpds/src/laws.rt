//! Laws of the words that contracts speak in. A caller cites one by calling it; the functions have no code.

pub use rpds_arena::laws as arenas;
pub use rpds_branch::laws as branches;
pub use rpds_hash::laws as hashed;
pub use rpds_history::laws as histories;
pub use rpds_sequence::laws as sequences;
pub use rpds_table::table::{
    answer_is_lawful, change_in_place_is_lawful, copy_is_lawful, map_change_is_lawful,
    order_is_lawful, reply_is_lawful, same_is_lawful, transition_is_lawful,
};
pub use rpds_tree::laws as ordered;
