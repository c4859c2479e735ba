//! Macros that make a container of their arguments. Each is a `Result`: after a failed allocation the arguments that are
//! left aren't evaluated. Without `in alloc;` none compiles, and the error says how it is written.

/// A list of the arguments, which are evaluated from last to first, since each is put before the others.
///
/// `list![in alloc; 1, 2]` is the list 1, 2, and `list![in alloc]` the empty one. It takes at most 120 arguments.
#[macro_export]
macro_rules! list {
    (in $alloc:expr $(;)?) => {
        Ok::<_, std::alloc::AllocError>($crate::List::new($alloc))
    };
    (in $alloc:expr; $first:expr $(, $rest:expr)* $(,)?) => {
        match $crate::list![in $alloc; $($rest),*] {
            Ok(mut made) => match made.push_front_mut($first) {
                Ok(()) => Ok(made),
                Err(failed) => Err(failed),
            },
            Err(failed) => Err(failed),
        }
    };
    ($($other:tt)*) => {
        compile_error!("write `list![in alloc; ..]?`")
    };
}

/// A stack of the arguments, which are evaluated from first to last, so that the last one is on top.
///
/// `stack![in alloc; 1, 2]` has 2 on top, and `stack![in alloc]` is the empty one.
#[macro_export]
macro_rules! stack {
    (in $alloc:expr $(; $($item:expr),* $(,)?)?) => {
        $crate::filled![push_mut; $crate::Stack::new($alloc); $($(($item)),*)?]
    };
    ($($other:tt)*) => {
        compile_error!("write `stack![in alloc; ..]?`")
    };
}

/// A queue of the arguments, which are evaluated from first to last, so that the first one is at the front.
///
/// `queue![in alloc; 1, 2]` has 1 at the front, and `queue![in alloc]` is the empty one. All items wait.
#[macro_export]
macro_rules! queue {
    (in $alloc:expr $(; $($item:expr),* $(,)?)?) => {
        $crate::filled![enqueue_mut; $crate::Queue::new($alloc); $($(($item)),*)?]
    };
    ($($other:tt)*) => {
        compile_error!("write `queue![in alloc; ..]?`")
    };
}

/// A vector of the arguments, which are evaluated from first to last.
///
/// `vector![in alloc; 1, 2]` is the vector 1, 2, and `vector![in alloc]` the empty one.
#[macro_export]
macro_rules! vector {
    (in $alloc:expr $(; $($item:expr),* $(,)?)?) => {
        $crate::filled![push_back_mut; $crate::Vector::new($alloc); $($(($item)),*)?]
    };
    ($($other:tt)*) => {
        compile_error!("write `vector![in alloc; ..]?`")
    };
}

/// A sequence of the arguments, which are evaluated from first to last.
///
/// `sequence![in alloc; 1, 2]` is the sequence 1, 2, and `sequence![in alloc]` the empty one.
#[macro_export]
macro_rules! sequence {
    (in $alloc:expr $(; $($item:expr),* $(,)?)?) => {
        $crate::filled![push_back_mut; $crate::Sequence::new($alloc); $($(($item)),*)?]
    };
    ($($other:tt)*) => {
        compile_error!("write `sequence![in alloc; ..]?`")
    };
}

/// A hashed map of the pairs, which are evaluated from first to last, each by its key and then its value.
///
/// `ht_map![in alloc; 1 => 10, 2 => 20]` has two keys, and `ht_map![in alloc]` is the empty one. Of equal keys the last one
/// stays.
#[macro_export]
macro_rules! ht_map {
    (in $alloc:expr $(; $($key:expr => $value:expr),* $(,)?)?) => {
        $crate::filled![insert_mut; $crate::HashTrieMap::new($alloc); $($(($key, $value)),*)?]
    };
    ($($other:tt)*) => {
        compile_error!("write `ht_map![in alloc; key => value, ..]?`")
    };
}

/// An ordered map of the pairs, which are evaluated from first to last, each by its key and then its value.
///
/// `rbt_map![in alloc; 1 => 10, 2 => 20]` has two keys, and `rbt_map![in alloc]` is the empty one. Of equal keys the last
/// one stays.
#[macro_export]
macro_rules! rbt_map {
    (in $alloc:expr $(; $($key:expr => $value:expr),* $(,)?)?) => {
        $crate::filled![insert_mut; $crate::RedBlackTreeMap::new($alloc); $($(($key, $value)),*)?]
    };
    ($($other:tt)*) => {
        compile_error!("write `rbt_map![in alloc; key => value, ..]?`")
    };
}

/// A hashed set of the arguments, which are evaluated from first to last.
///
/// `ht_set![in alloc; 1, 2]` has two members, and `ht_set![in alloc]` is the empty one. Of equal members the last one stays.
#[macro_export]
macro_rules! ht_set {
    (in $alloc:expr $(; $($item:expr),* $(,)?)?) => {
        $crate::filled![insert_mut; $crate::HashTrieSet::new($alloc); $($(($item)),*)?]
    };
    ($($other:tt)*) => {
        compile_error!("write `ht_set![in alloc; ..]?`")
    };
}

/// An ordered set of the arguments, which are evaluated from first to last.
///
/// `rbt_set![in alloc; 1, 2]` has two members, and `rbt_set![in alloc]` is the empty one. Of equal members the last one
/// stays.
#[macro_export]
macro_rules! rbt_set {
    (in $alloc:expr $(; $($item:expr),* $(,)?)?) => {
        $crate::filled![insert_mut; $crate::RedBlackTreeSet::new($alloc); $($(($item)),*)?]
    };
    ($($other:tt)*) => {
        compile_error!("write `rbt_set![in alloc; ..]?`")
    };
}

// The container after a call for each of the groups of arguments, from first to last.
#[doc(hidden)]
#[macro_export]
macro_rules! filled {
    ($call:ident; $empty:expr; $(($($part:expr),+)),*) => {{
        let made = Ok::<_, std::alloc::AllocError>($empty);
        $(
            let made = match made {
                Ok(mut made) => match made.$call($($part),+) {
                    Ok(()) => Ok(made),
                    Err(failed) => Err(failed),
                },
                Err(failed) => Err(failed),
            };
        )*
        made
    }};
}
