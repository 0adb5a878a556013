ghost use Rattle.std.specs.Prelude.{◌≡◌, ◌+◌, ◌-◌, ◌≤◌, [], ◌++◌, length, replicate, IfOk};
ghost use Rattle.std.specs.Prelude.{vec_capacity, vec_len};
ghost use Rattle.mem_bench.specs.Regions.{overlaid};

use cu_base::NoMemory;
use std::alloc::Global;

/// An empty list with room for so many items.
pub fn with_room<T>(alloc: Global, most: usize) -> Result<Vec<T>, NoMemory>
    ensures items { IfOk result (λ v. v.items ≡ []) }
    ensures room { IfOk result (λ v. most ≤ vec_capacity v) }
{
    match Vec::with_capacity(alloc, most) {
        Ok(items) => Ok(items),
        Err(_) => Err(NoMemory),
    }
}

/// Appends one item until there are so many, where there is room.
pub fn lengthen<T: Copy>(items: &mut Vec<T>, size: usize, item: T)
    requires { size ≤ vec_capacity items.old }
    ensures items { items.new.items
        ≡ items.old.items ++ replicate (size - length items.old.items) item }
    ensures room { vec_capacity items.old ≤ vec_capacity items.new }
{
    if size <= items.len() {
        return;
    }
    match items.resize(size, item) {
        Ok(()) => {}
        Err(_) => unreachable!(),
    }
}

/// Appends items, where there is room.
pub fn append<T: Copy>(items: &mut Vec<T>, more: &[T])
    requires { vec_len items.old + length more.now ≤ vec_capacity items.old }
    ensures items { items.new.items ≡ items.old.items ++ more.now }
    ensures room { vec_capacity items.old ≤ vec_capacity items.new }
{
    match items.extend_from_slice(more) {
        Ok(()) => {}
        Err(_) => unreachable!(),
    }
}

/// Puts items in place of those from a place on.
pub fn put<T: Copy>(items: &mut Vec<T>, at: usize, new: &[T])
    requires { at + length new.now ≤ length items.old.items }
    ensures items { items.new.items ≡ overlaid at new.now items.old.items }
    ensures room { vec_capacity items.new ≡ vec_capacity items.old }
{
    let to = &mut items[at..at + new.len()];
    to.copy_from_slice(new);
}

/// Marks so many places from a place on as dirty, or as not dirty.
pub fn mark(marks: &mut Vec<bool>, at: usize, n: usize, dirty: bool)
    requires { at + n ≤ length marks.old.items }
    ensures items { marks.new.items ≡ overlaid at (replicate n dirty) marks.old.items }
    ensures room { vec_capacity marks.new ≡ vec_capacity marks.old }
{
    let to = &mut marks[at..at + n];
    to.fill(dirty);
}
