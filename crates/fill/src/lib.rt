// Every item of a lent part set to one value: with it the painter lays what lies outside every cell.
#![tactic(auto)]

ghost use Rattle.std.specs.Prelude.{◌≡◌, length, replicate};

// A function of ours, as `fill_unique`, which docs/ACCOUNT.md names, is of it; and a loop, as the library's `fill` asks that cloning cannot fail, which no law of a
// Copy type says.
pub fn fill<T: Copy>(items: &mut [T], item: T)
    ensures { items.new ≡ replicate (length items.old) item }
{
    for place in items.iter_mut() {
        *place = item;
    }
}
