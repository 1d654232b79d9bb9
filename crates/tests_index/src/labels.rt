//! Normal forms of labels for which memory is wanting.

use refusing_alloc::Refusing;
use st_label::Label;
use std::alloc::{Allocator, Global};

// Whether the label has a normal form, which is this text and its own normal form, and is itself as it was written.
fn is_normalized<A: Allocator + Copy>(label: &Label<A>, text: &str, normal: &str) -> bool {
    let Ok(made) = label.normal() else {
        return false;
    };
    let is_told = label.text() == text && made.text() == normal;
    match made.is_normal() {
        Ok(is_normal) => is_normal && is_told,
        Err(_) => false,
    }
}

// With any one growth refused there is no normal form, or it is not told whether it is one, and the label is as before. Gives how many
// growths there are.
fn growths(heap: &Refusing<Global>) -> Option<u64> {
    let label = Label::parse(heap, "(C|B)&A&A").ok()?;
    for n in 1..100u64 {
        heap.arm(n);
        let is_normalized = is_normalized(&label, "(C|B)&A&A", "(B|C)&A");
        if is_normalized != heap.is_armed() {
            return None;
        }
        if is_normalized {
            return Some(n - 1);
        }
    }
    None
}

#[test]
fn each_growth_refused(rt: HostRuntime) {
    let heap = Refusing::new(rt.alloc());
    assert!(rt; growths(&heap).unwrap_or(0) >= 3);
}
