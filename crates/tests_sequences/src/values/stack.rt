ghost use Rattle.std.specs.Prelude.{◌≡◌, [], ◌∷◌, IfOk};

use rpds_faults::{Numbers, texts_are};
use rpds_list::stack::Stack;
use std::alloc::{AllocError, Global};
use std::process::Abort;

fn three_pushed(alloc: Global) -> Result<Stack<u64>, AllocError>
    ensures { IfOk result (λ stack. stack ≡ 1 ∷ 2 ∷ 3 ∷ []) }
{
    Stack::new(alloc).push(3)?.push(2)?.push(1)
}

fn of_array(alloc: Global) -> Result<Stack<u64>, AllocError>
    ensures { IfOk result (λ stack. stack ≡ 1 ∷ 2 ∷ 3 ∷ []) }
{
    Stack::from_array(alloc, [1, 2, 3])
}

#[test]
fn made_of_an_array(rt: HostRuntime) {
    let stack = of_array(rt.alloc()).expect(&rt, "ample memory");
    assert!(rt; stack.iter().copied().eq([1, 2, 3]));
}

#[test]
fn text(rt: HostRuntime) {
    let stack = three_pushed(rt.alloc()).expect(&rt, "ample memory");
    let found = texts_are(
        rt.alloc(),
        (&Stack::new(rt.alloc()), &stack, &stack),
        "Stack() Stack(1, 2, 3) Stack(  1,   2,   3)",
        "[] [1, 2, 3] [\n    1,\n    2,\n    3,\n]",
    );
    assert!(rt; found == Ok(true));
}

// What shares its cells lives on.
#[test]
fn long_chains_end(rt: HostRuntime) {
    let stack = Stack::from_iter(rt.alloc(), 0..50_000u64).expect(&rt, "ample memory");
    let rest = stack
        .pop()
        .expect(&rt, "ample memory")
        .expect(&rt, "an item");
    drop(stack);
    assert!(rt; rest.peek() == Some(&1));
    assert!(rt; rest.iter().count() == 49_999);
}

// The item on top goes, and is the last of the plain vector.
fn split_both(rt: &impl Abort, stack: &mut Stack<u64>, plain: &mut Vec<u64>) {
    let rest = match stack.split_first() {
        Ok(Some((top, rest))) => {
            assert!(rt; plain.pop() == Some(*top));
            rest
        }
        Ok(None) => {
            assert!(rt; plain.pop().is_none());
            return;
        }
        Err(_) => return,
    };
    assert!(rt; rest.len() == plain.len() && rest.peek() == plain.last());
    *stack = rest;
}

// Up to four numbers are put in at once, and up to five are taken out.
#[test]
fn extended_and_split(rt: HostRuntime) {
    let mut numbers = Numbers::new();
    let mut stack = Stack::new(rt.alloc());
    let mut plain = Vec::new(rt.alloc());
    for _ in 0..1000u32 {
        let from = numbers.next() % 1_000_000;
        let to = from + numbers.next() % 5;
        stack.extend(from..to).expect(&rt, "ample memory");
        plain.extend(from..to).expect(&rt, "ample memory");
        for _ in 0..numbers.next() % 6 {
            split_both(&rt, &mut stack, &mut plain);
        }
        assert!(rt; stack.iter().eq(plain.iter().rev()));
    }
}
