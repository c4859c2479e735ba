//! Two people count a shop's stock, each in a branch of the list, and a merge brings both counts together.
//!
//! The program shows the list, what either counted, and the merge. An article that one of them counted anew has that count.
#![tactic(auto)]

ghost use Rattle.std.specs.Prelude.{◌≡◌, IfOk, nat_eq, option_copied};
ghost use Rattle.std.specs.declared.cmp.Ordering.TheVariants.{Equal};
ghost use Rattle.example_merge.specs.Counts.{lower};
ghost use Rattle.rpds.specs.Differences.{value_of};
ghost use Rattle.rpds.specs.Merges.{merged_value};

use rpds::{Branch, RedBlackTreeMap};
use std::alloc::{AllocError, Global};
use std::io;

// How many there are of each article.
type Stock = RedBlackTreeMap<String, u64>;

// A stock, and what was counted of it since.
type Count<K> = Branch<K, u64>;

// What stands where both counted an article, and not alike: the lower count, and nothing where either took it off the list.
fn settled(ours: Option<&u64>, theirs: Option<&u64>) -> Option<u64>
    ensures { result ≡ lower (option_copied ours.entry) (option_copied theirs.entry) }
{
    match (ours, theirs) {
        (Some(ours), Some(theirs)) => Some(if ours <= theirs { *ours } else { *theirs }),
        _ => None,
    }
}

// Both counts in one.
fn merged<K: Ord + Clone + Drop>(ours: &Count<K>, theirs: &Count<K>) -> Result<Count<K>, AllocError>
    requires { (x y : K) → K.is_clone x y → K.cmp x y ≡ Equal }
    ensures { IfOk result (λ m. (article : K) → value_of K.cmp article m.current.entries
        ≡ merged_value nat_eq (λ before our their. lower our their) (value_of K.cmp article theirs.now.base.entries)
        (value_of K.cmp article ours.now.current.entries) (value_of K.cmp article theirs.now.current.entries)) }
{
    ours.merge(theirs, |_, _, ours, theirs| Ok(settled(ours, theirs)))
}

// The list of these articles.
fn listed(alloc: Global, articles: &[(&str, u64)]) -> Result<Stock, AllocError> {
    let mut stock = Stock::new(alloc);
    for (name, count) in articles {
        stock.insert_mut(String::from_str(alloc, name)?, *count)?;
    }
    Ok(stock)
}

// A branch in which these articles have another count, and one is off the list.
fn counted(
    stock: &Stock,
    articles: &[(&str, u64)],
    gone: &str,
) -> Result<Count<String>, AllocError> {
    let mut counted = Count::new(stock)?;
    for (name, count) in articles {
        counted.insert_mut(String::from_str(*stock.allocator(), name)?, *count)?;
    }
    counted.remove_mut(gone)?;
    Ok(counted)
}

const STOCK: &[(&str, u64)] = &[
    ("eggs", 60),
    ("milk", 12),
    ("rice", 30),
    ("salt", 5),
    ("tea", 8),
];

const OURS: &[(&str, u64)] = &[("eggs", 54), ("rice", 28), ("soap", 4)];

const THEIRS: &[(&str, u64)] = &[("milk", 9), ("rice", 26), ("soap", 4), ("tea", 7)];

fn show(rt: &impl Print, ours: &Count<String>, theirs: &Count<String>) -> io::Result<()> {
    println!(rt; "before {}", ours.base())?;
    println!(rt; "ours   {}", ours.current())?;
    println!(rt; "theirs {}", theirs.current())?;
    println!(rt; "merged {}", merged(ours, theirs)?.current())
}

fn main(rt: HostRuntime) -> io::Result<()> {
    let alloc = rt.alloc();
    let stock = listed(alloc, STOCK)?;
    let ours = counted(&stock, OURS, "tea")?;
    let theirs = counted(&stock, THEIRS, "salt")?;
    show(&rt, &ours, &theirs)
}
