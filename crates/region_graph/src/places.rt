// Arrays whose first places are used, of any element: leaving some out, and putting one in.
ghost use Rattle.std.specs.Prelude.{◌≡◌, ◌≤◌, ◌<◌, Bool, length};
ghost use Rattle.std.specs.Fn.{FnReturnsAt, ComputesKey};
ghost use Rattle.region_graph.specs.Places.{Tests, Retained, Inserted};

// Keeps those of the first `count` places that pass, in their order. Each place that they leave takes `blank`, by a loop: `fill` clones, and
// of clones of any T nothing is known. Says how many are kept.
pub fn retain<T: Copy, F: Fn(&T) -> bool>(
    items: &mut [T],
    count: usize,
    blank: T,
    keeps: F,
) -> usize
    requires in_bounds { count ≤ length items.old }
    requires callable { F.IsAlwaysCallable keeps }
    ensures { (p : T → Bool) → Tests (FnReturnsAt F.Fn keeps) p → Retained p items.old count blank result items.new }
{
    let mut kept = 0;
    for i in 0..count {
        if keeps(&items[i]) {
            items[kept] = items[i];
            kept += 1;
        }
    }
    for left in kept..count {
        items[left] = blank;
    }
    kept
}

// Puts an item behind those of the first `count` places that come before it; the others move up.
pub fn insert<T: Copy, F: FnMut(&T) -> bool>(items: &mut [T], count: usize, item: T, before: F)
    requires in_bounds { count < length items.old }
    requires callable { F.IsAlwaysCallable before }
    ensures { (p : T → Bool) → ComputesKey F.FnMut p before → Inserted p items.old count item items.new }
{
    let at = items[..count].partition_point(before);
    items.copy_within(at..count, at + 1);
    items[at] = item;
}
